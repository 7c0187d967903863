// The bound elements: how many cells the variables of each take, and all together.
#![tactic(auto)]

ghost use Rattle.std.specs.Prelude.{◌≡◌, ℕ, ◌*◌, ◌<◌};
ghost use Rattle.sheet_rules.specs.Indices.{cells_before};
ghost use Rattle.sheet_rules.specs.Bindings.{first_binding};
ghost use Rattle.sheet_rules.specs.Shape.{cells_bound, cells_of};

use sheet::{HEAD, Record};
use sheet_opened::Reader;

// How many cells the first n variables of chart c take.
pub fn cells_before(sheet: &Reader, c: Record, n: u16) -> usize
    ensures { (result ≡ cells_before sheet.now.sheet.now c n) × (result < 65536 * 65536) }
{
    let first = c.f2 as usize;
    let count = n as usize;
    let mut sum: usize = 0;
    for j in 0..count {
        sum += sheet_indices::cells_taken(sheet, first + j);
    }
    sum
}

// How many cells the element has whose first binding record is k.
fn cells_bound(sheet: &Reader, k: usize) -> usize
    ensures { ((i : ℕ) → k ≡ first_binding sheet.now.sheet.now i → result ≡ cells_bound sheet.now.sheet.now i) × (result < 65536 * 65536) }
{
    let Some(c) = sheet_bindings::chart_bound(sheet, k) else {
        return 0;
    };
    cells_before(sheet, c, c.f3)
}

// How many cells the bound elements have together.
pub fn cells(sheet: &Reader) -> usize
    ensures { result ≡ cells_of sheet.now.sheet.now }
{
    let components = sheet_fields::field_at(sheet, HEAD, 0, 0);
    let externals = sheet_fields::field_at(sheet, HEAD, 0, 1);
    let mut sum: usize = 0;
    let mut k: usize = 0;
    for _ in 0..components.saturating_sub(externals) {
        sum += cells_bound(sheet, k);
        k = sheet_bindings::record_behind(sheet, k);
    }
    sum
}
