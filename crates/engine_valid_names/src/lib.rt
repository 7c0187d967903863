// Names with their data, and whether a chart has a reaction to them.
#![tactic(auto)]

ghost use Rattle.std.specs.Prelude.{◌≡◌, ◌+◌, ◌<◌, ◌≤◌, length};
ghost use Rattle.sheet_rules.specs.Types.{has_reaction};
ghost use Rattle.machine.specs.State.{word_of};
ghost use Rattle.machine.specs.Valid.{data_fit, name_fits};
ghost use Rattle.engine_valid_names.specs.Parts.{datum_fits};

use sheet::{DECLARATIONS, NAMES, Range, Record};
use sheet_opened::Reader;

// ---- data

fn datum_fits(sheet: &Reader, g: Range, j: usize, st: &[i32], i: usize) -> bool
    requires { (g.first < 65536) × (j < 4) × (i < length st.now) }
    ensures { result ≡ datum_fits sheet.now.sheet.now g j (word_of st.now i) }
{
    if j < g.count {
        let Some(d) = sheet.record(DECLARATIONS, g.first + j) else {
            return false;
        };
        return engine_valid_values::value_at(sheet, d.f0 as usize, st, i);
    }
    engine_valid_words::zero_at(st, i)
}

// Whether the four words from `at` on fit a name's types.
fn data_fit(sheet: &Reader, g: Range, st: &[i32], at: usize) -> bool
    requires { (g.first < 65536) × (at + 4 ≤ length st.now) }
    ensures { result ≡ data_fit sheet.now.sheet.now g (λ j. word_of st.now (at + j)) }
{
    for j in 0..4 {
        if !datum_fits(sheet, g, j, st, at + j) {
            return false;
        }
    }
    true
}

// Whether the word at `at` is a name of a class, and the four words after it are its data.
pub fn name_fits(sheet: &Reader, class: u16, st: &[i32], at: usize) -> bool
    requires { at + 5 ≤ length st.now }
    ensures { result ≡ name_fits sheet.now.sheet.now class (word_of st.now at) (λ j. word_of st.now (at + 1 + j)) }
{
    if !engine_valid_words::below_at(st, at, sheet.count(NAMES)) {
        return false;
    }
    let n = engine_valid_words::number_at(st, at);
    if !sheet_types::has_class(sheet, n, class) {
        return false;
    }
    data_fit(sheet, sheet_types::name_range(sheet, n), st, at + 1)
}

// ---- reactions

// Whether chart c has an internal reaction to name n.
pub fn has_reaction(sheet: &Reader, c: Record, n: usize) -> bool
    ensures { result ≡ has_reaction sheet.now.sheet.now c n }
{
    let found = engine_finders::first_body(sheet, c, |b| b.f0 == 3 && b.f2 as usize == n);
    found < c.f5 as usize
}
