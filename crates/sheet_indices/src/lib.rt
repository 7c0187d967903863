// The index of a declaration: whether it is a plain variable, whether its index is there, how many cells it takes.
#![tactic(auto)]

ghost use Rattle.std.specs.Prelude.{◌≡◌, ◌<◌};
ghost use Rattle.sheet_rules.specs.Indices.{index_of, index_at, is_plain, cells_by, cells_taken};
ghost use Rattle.sheet_rules.specs.Shape.{index_exists};

use sheet::{DECLARATIONS, ENUMERATED_TYPES, HEAD};
use sheet_opened::Reader;

// "An array takes one cell of 8 words per index"; any other variable takes one, also where i is no index.
pub fn cells_by(sheet: &Reader, i: u16) -> usize
    ensures { (result ≡ cells_by (index_of sheet.now.sheet.now i)) × (result < 65536) }
{
    match i {
        0 => 1,
        1 => 2,
        2 => sheet_fields::field_at(sheet, HEAD, 0, 0),
        3 => sheet_fields::field_at(sheet, HEAD, 0, 2),
        4..=7 => 1,
        8..=60000 => sheet_fields::field_at(sheet, ENUMERATED_TYPES, i as usize - 8, 0),
        60001..=60064 => i as usize - 60000,
        _ => 1,
    }
}

// How many cells declaration d takes: one where it isn't there.
pub fn cells_taken(sheet: &Reader, d: usize) -> usize
    ensures { (result ≡ cells_taken sheet.now.sheet.now d) × (result < 65536) }
{
    let Some(r) = sheet.record(DECLARATIONS, d) else {
        return 1;
    };
    cells_by(sheet, r.f1)
}

// "0 stays a plain variable"
pub fn is_plain(sheet: &Reader, d: usize) -> bool
    ensures { result ≡ is_plain (index_at sheet.now.sheet.now d) }
{
    let Some(r) = sheet.record(DECLARATIONS, d) else {
        return false;
    };
    r.f1 == 0
}

// "Another f1 is 1": none, a data type that is there, or a number from 1 to 64.
pub fn index_exists(sheet: &Reader, i: u16) -> bool
    ensures { result ≡ index_exists sheet.now.sheet.now (index_of sheet.now.sheet.now i) }
{
    match i {
        0..=3 => true,
        4..=7 => false,
        8..=60000 => i as usize - 8 < sheet.count(ENUMERATED_TYPES),
        60001..=60064 => true,
        _ => false,
    }
}
