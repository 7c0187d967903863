// The cell of a variable: a value and zeros, or a clock, stopped or running.
#![tactic(auto)]

ghost use Rattle.std.specs.Prelude.{◌≡◌, ℕ, ◌+◌, ◌≤◌, length, Some};
ghost use Rattle.machine.specs.Values.{chart_of};
ghost use Rattle.machine.specs.Valid.{zero_words, running_clock, clock_cell, cell_fits};
ghost use Rattle.engine_valid_cells.specs.Parts.{value_fits};

use sheet::Record;
use sheet_opened::Reader;

// Whether the words from `at + from` on, up to `at + 8`, are zero.
pub fn zero_words(st: &[i32], at: usize, from: usize) -> bool
    requires { at + 8 ≤ length st.now }
    ensures { result ≡ zero_words st.now at from }
{
    if 8 <= from {
        return true;
    }
    let count = 8 - from;
    let first = at + from;
    for k in 0..count {
        if !engine_valid_words::zero_at(st, first + k) {
            return false;
        }
    }
    true
}

// Value and period of a running Timeout or Cycler.
fn value_fits(t: usize, value: i32, period: i32) -> bool
    ensures { result ≡ value_fits t value period }
{
    if t == 5 {
        if !engine_valid_words::at_least(value, 1) {
            return false;
        }
        return engine_valid_words::at_least(period, value);
    }
    if !engine_valid_words::at_least(value, 0) {
        return false;
    }
    engine_valid_words::less(value, period)
}

fn running_clock(sheet: &Reader, c: Record, t: usize, st: &[i32], at: usize) -> bool
    requires { at + 8 ≤ length st.now }
    ensures { (e : ℕ) → chart_of sheet.now.sheet.now e ≡ Some c → result ≡ running_clock sheet.now.sheet.now e t st.now at }
{
    let value = engine_valid_words::word(st, at + 1);
    let period = engine_valid_words::word(st, at + 2);
    if t == 4 {
        if !engine_valid_words::at_least(value, 0) {
            return false;
        }
        return zero_words(st, at, 2);
    }
    if !value_fits(t, value, period) {
        return false;
    }
    if !engine_valid_names::name_fits(sheet, 1, st, at + 3) {
        return false;
    }
    engine_valid_names::has_reaction(sheet, c, engine_valid_words::number_at(st, at + 3))
}

fn clock_cell(sheet: &Reader, c: Record, t: usize, st: &[i32], at: usize) -> bool
    requires { at + 8 ≤ length st.now }
    ensures { (e : ℕ) → chart_of sheet.now.sheet.now e ≡ Some c → result ≡ clock_cell sheet.now.sheet.now e t st.now at }
{
    if engine_valid_words::zero_at(st, at) {
        return zero_words(st, at, 1);
    }
    if !engine_valid_words::below_at(st, at, 2) {
        return false;
    }
    running_clock(sheet, c, t, st, at)
}

// The cell at `at` of a variable of type t of an element that is bound to chart c.
pub fn cell_fits(sheet: &Reader, c: Record, t: usize, st: &[i32], at: usize) -> bool
    requires { at + 8 ≤ length st.now }
    ensures { (e : ℕ) → chart_of sheet.now.sheet.now e ≡ Some c → result ≡ cell_fits sheet.now.sheet.now e t st.now at }
{
    if sheet_types::is_clock(t) {
        return clock_cell(sheet, c, t, st, at);
    }
    if !engine_valid_values::value_at(sheet, t, st, at) {
        return false;
    }
    zero_words(st, at, 1)
}
