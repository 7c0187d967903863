// Whether a telegram may wait: its eight words are sender, receiver, port, name, four data.
#![tactic(auto)]

ghost use Rattle.std.specs.Prelude.{◌≡◌, true, ◌+◌, ◌≤◌, length, pos};
ghost use Rattle.std.specs.Int.Signed.{le_z};
ghost use Rattle.machine.specs.State.{word_of, telegram_in, is_internal};
ghost use Rattle.machine.specs.Valid.{internal_fits, external_fits, telegram_fits};

use engine_cells::Yard;
use sheet_opened::Reader;

pub fn is_internal(st: &[i32], at: usize) -> bool
    requires { at + 8 ≤ length st.now }
    ensures { result ≡ is_internal (telegram_in st.now at) }
{
    engine_valid_words::same(engine_valid_words::word(st, at + 2), -1)
}

fn internal_fits(yard: &Yard, st: &[i32], at: usize) -> bool
    requires { (at + 8 ≤ length st.now) × (le_z (pos 0) (word_of st.now (at + 1)) ≡ true) }
    ensures { result ≡ internal_fits yard.now.sheet.sheet.now (telegram_in st.now at) }
{
    let sender = engine_valid_words::word(st, at);
    let receiver = engine_valid_words::word(st, at + 1);
    if !engine_valid_words::same(sender, receiver) {
        return false;
    }
    let e = engine_valid_words::number_at(st, at + 1);
    if !engine_valid_values::is_bound(&yard.sheet, e) {
        return false;
    }
    if !engine_valid_names::name_fits(&yard.sheet, 1, st, at + 3) {
        return false;
    }
    let Some(c) = yard.chart(e) else {
        return false;
    };
    engine_valid_names::has_reaction(&yard.sheet, c, engine_valid_words::number_at(st, at + 3))
}

fn external_fits(sheet: &Reader, st: &[i32], at: usize) -> bool
    requires { at + 8 ≤ length st.now }
    ensures { result ≡ external_fits sheet.now.sheet.now (telegram_in st.now at) }
{
    if engine_valid_values::both_external(sheet, st, at) {
        return false;
    }
    if !engine_valid_words::below_at(st, at + 2, engine_valid_values::ports(sheet)) {
        return false;
    }
    engine_valid_names::name_fits(sheet, 0, st, at + 3)
}

pub fn telegram_fits(yard: &Yard, st: &[i32], at: usize) -> bool
    requires { at + 8 ≤ length st.now }
    ensures { result ≡ telegram_fits yard.now.sheet.sheet.now (telegram_in st.now at) }
{
    if !engine_valid_values::both_components(&yard.sheet, st, at) {
        return false;
    }
    if is_internal(st, at) {
        return internal_fits(yard, st, at);
    }
    external_fits(&yard.sheet, st, at)
}
