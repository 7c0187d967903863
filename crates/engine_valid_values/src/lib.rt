// Values of the sheet's types, and which components are bound.
#![tactic(auto)]

ghost use Rattle.std.specs.Prelude.{◌≡◌, ◌+◌, ◌<◌, ◌≤◌, length};
ghost use Rattle.sheet.specs.All.{◌and◌};
ghost use Rattle.sheet_rules.specs.Fields.{components_of, externals_of, ports_of, members_of};
ghost use Rattle.machine.specs.Values.{is_below, in_type, is_bound};
ghost use Rattle.machine.specs.State.{word_of};

use sheet::{ENUMERATED_TYPES, HEAD};
use sheet_opened::Reader;

// ---- numbers of the sheet

pub fn components(sheet: &Reader) -> usize
    ensures { (result ≡ components_of sheet.now.sheet.now) × (result < 65536) }
{
    sheet_fields::field_at(sheet, HEAD, 0, 0)
}

pub fn externals(sheet: &Reader) -> usize
    ensures { (result ≡ externals_of sheet.now.sheet.now) × (result < 65536) }
{
    sheet_fields::field_at(sheet, HEAD, 0, 1)
}

pub fn ports(sheet: &Reader) -> usize
    ensures { (result ≡ ports_of sheet.now.sheet.now) × (result < 65536) }
{
    sheet_fields::field_at(sheet, HEAD, 0, 2)
}

// How many values enumerated type k has.
fn members(sheet: &Reader, k: usize) -> usize
    ensures { (result ≡ members_of sheet.now.sheet.now k) × (result < 65536) }
{
    sheet_fields::field_at(sheet, ENUMERATED_TYPES, k, 0)
}

// ---- which components are bound

pub fn is_bound(sheet: &Reader, e: usize) -> bool
    ensures { result ≡ is_bound sheet.now.sheet.now e }
{
    externals(sheet) <= e && e < components(sheet)
}

// ---- values

// Whether a word is a member of enumerated type t - 8.
fn is_member(sheet: &Reader, t: usize, z: i32) -> bool
    requires { 4 ≤ t }
    ensures { result ≡ in_type sheet.now.sheet.now t z }
{
    if t < 8 {
        return false;
    }
    engine_valid_words::is_below(z, members(sheet, t - 8))
}

// Whether a word is a value of type t. Every word is an Int.
fn in_type(sheet: &Reader, t: usize, z: i32) -> bool
    ensures { result ≡ in_type sheet.now.sheet.now t z }
{
    match t {
        0 => engine_valid_words::is_below(z, 2),
        1 => true,
        2 => engine_valid_words::is_below(z, components(sheet)),
        3 => engine_valid_words::is_below(z, ports(sheet)),
        _ => is_member(sheet, t, z),
    }
}

pub fn value_at(sheet: &Reader, t: usize, st: &[i32], i: usize) -> bool
    requires { i < length st.now }
    ensures { result ≡ in_type sheet.now.sheet.now t (word_of st.now i) }
{
    in_type(sheet, t, engine_valid_words::word(st, i))
}

// ---- ends of telegrams

// Whether the words at `at` and after it are two numbers below `count`.
fn both_below(st: &[i32], at: usize, count: usize) -> bool
    requires { at + 2 ≤ length st.now }
    ensures { result ≡ is_below (word_of st.now at) count and is_below (word_of st.now (at + 1)) count }
{
    engine_valid_words::below_at(st, at, count) && engine_valid_words::below_at(st, at + 1, count)
}

// Whether the words at `at` and after it are two external components.
pub fn both_external(sheet: &Reader, st: &[i32], at: usize) -> bool
    requires { at + 2 ≤ length st.now }
    ensures { result ≡ is_below (word_of st.now at) (externals_of sheet.now.sheet.now) and is_below (word_of st.now (at + 1)) (externals_of sheet.now.sheet.now) }
{
    both_below(st, at, externals(sheet))
}

// Whether the two words from `at` on are components.
pub fn both_components(sheet: &Reader, st: &[i32], at: usize) -> bool
    requires { at + 2 ≤ length st.now }
    ensures { result ≡ is_below (word_of st.now at) (components_of sheet.now.sheet.now) and is_below (word_of st.now (at + 1)) (components_of sheet.now.sheet.now) }
{
    both_below(st, at, components(sheet))
}
