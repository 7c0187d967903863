// Whether at most 16 telegrams of a class wait. A state's telegrams are gone over once, with a count for each
// class, so that no pair of them is compared.
#![tactic(auto)]

ghost use Rattle.std.specs.Prelude.{◌≡◌, List, ℕ, ◌+◌, ◌<◌, ◌≤◌, length};
ghost use Rattle.machine.specs.State.{state_length, telegram_in};
ghost use Rattle.machine.specs.Valid.{classes_fit};
ghost use Rattle.engine_store.specs.Layout.{place_in};
ghost use Rattle.engine_valid_telegrams.specs.Waits.{Waits};
ghost use Rattle.engine_valid_classes.specs.Classes.{EndsFit, class_number};

// The number of a telegram's class: 64 for each sender of external ones, and behind them one for each element's internal ones.
fn class_number(st: &[i32], at: usize) -> usize
    requires { (at + 8 ≤ length st.now) × EndsFit (telegram_in st.now at) }
    ensures { result ≡ class_number (telegram_in st.now at) }
{
    let receiver = engine_valid_words::number_at(st, at + 1);
    if engine_valid_telegrams::is_internal(st, at) {
        return 4096 + receiver;
    }
    64 * engine_valid_words::number_at(st, at) + receiver
}

// n telegrams wait; 16 are never too many.
pub fn classes_fit(st: &[i32], n: usize) -> bool
    requires { Waits st.now n × ((j : ℕ) → j < n → EndsFit (telegram_in st.now (place_in (length st.now) j))) }
    ensures { (s : List ℕ) → length st.now ≡ state_length s → result ≡ classes_fit s st.now }
{
    if n <= 16 {
        return true;
    }
    let mut counts = [0u8; 4160];
    for j in 0..n {
        let k = class_number(st, engine_store::place_at(st.len(), j));
        let count = counts[k];
        if count == 16 {
            return false;
        }
        counts[k] = count + 1;
    }
    true
}
