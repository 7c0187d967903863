// Whether the places of a state fit: the telegrams that wait, and zeros in the unused ones.
#![tactic(auto)]

ghost use Rattle.std.specs.Prelude.{◌≡◌, List, ℕ, length};
ghost use Rattle.machine.specs.State.{state_length};
ghost use Rattle.machine.specs.Valid.{waiting_fit, unused_zero};
ghost use Rattle.engine_valid_telegrams.specs.Waits.{Waits};

use engine_cells::Yard;

// The n waiting telegrams.
pub fn waiting_fit(yard: &Yard, st: &[i32], n: usize) -> bool
    requires { (length st.now ≡ state_length yard.now.sheet.sheet.now) × Waits st.now n }
    ensures { result ≡ waiting_fit yard.now.sheet.sheet.now st.now }
{
    for j in 0..n {
        let at = engine_store::place_at(st.len(), j);
        if !engine_valid_telegrams::telegram_fits(yard, st, at) {
            return false;
        }
    }
    true
}

// The places behind n telegrams.
pub fn unused_zero(st: &[i32], n: usize) -> bool
    requires { Waits st.now n }
    ensures { (s : List ℕ) → length st.now ≡ state_length s → result ≡ unused_zero s st.now }
{
    let count = engine_store::PLACES - n;
    for k in 0..count {
        let at = engine_store::place_at(st.len(), n + k);
        if !engine_valid_cells::zero_words(st, at, 0) {
            return false;
        }
    }
    true
}
