// Whether a state is of the sheet: each sentence of the paper's State paragraph as a test.
#![tactic(auto)]

ghost use Rattle.std.specs.Prelude.{◌≡◌, ◌≤◌, length};
ghost use Rattle.machine.specs.Valid.{head_fits, cells_fit, content_fits};
ghost use Rattle.machine.specs.State.{state_length};

use engine_cells::Yard;

fn head_fits(st: &[i32]) -> bool
    requires { 8 ≤ length st.now }
    ensures { result ≡ head_fits st.now }
{
    if !engine_valid_words::below_at(st, 0, engine_store::PLACES + 1) {
        return false;
    }
    engine_valid_cells::zero_words(st, 0, 1)
}

fn cells_fit(yard: &Yard, st: &[i32]) -> bool
    requires { length st.now ≡ state_length yard.now.sheet.sheet.now }
    ensures { result ≡ cells_fit yard.now.sheet.sheet.now st.now }
{
    let from = engine_valid_values::externals(&yard.sheet);
    let count = yard.elements();
    for i in 0..count {
        let e = from + i;
        let Some(c) = yard.chart(e) else {
            return false;
        };
        if !engine_valid_elements::element_fits(yard, c, e, st) {
            return false;
        }
    }
    true
}

// Whether all that the paper says of a state's content holds.
pub fn content_fits(yard: &Yard, st: &[i32]) -> bool
    requires { length st.now ≡ state_length yard.now.sheet.sheet.now }
    ensures { result ≡ content_fits yard.now.sheet.sheet.now st.now }
{
    if !head_fits(st) {
        return false;
    }
    if !cells_fit(yard, st) {
        return false;
    }
    let n = engine_valid_words::number_at(st, 0);
    if !engine_valid_waiting::waiting_fit(yard, st, n) {
        return false;
    }
    if !engine_valid_waiting::unused_zero(st, n) {
        return false;
    }
    engine_valid_classes::classes_fit(st, n)
}
