// The telegrams that wait, and one appended.
#![tactic(auto)]

ghost use Rattle.std.specs.Prelude.{◌≡◌, List, ℕ, ◌<◌, ◌≤◌, length, OnErr};
ghost use Rattle.machine.specs.State.{places, state_length, waiting, telegram_of, with_telegram, appended};
ghost use Rattle.engine_store.specs.Layout.{shortest};
ghost use Rattle.engine_queue.specs.Laid.{Laid};
ghost use Rattle.engine_queue.specs.Changed.{changed_to};

use engine_store::PLACES;
use machine::Telegram;

// How many telegrams wait.
pub fn waiting_count(st: &[i32]) -> usize
    requires { Laid st.now }
    ensures { result ≡ waiting st.now }
{
    st[0] as usize
}

// The telegram at place j.
pub fn telegram_at(st: &[i32], j: usize) -> Telegram
    requires { (shortest ≤ length st.now) × (j < places) }
    ensures { (s : List ℕ) → length st.now ≡ state_length s → result ≡ telegram_of s st.now j }
{
    let at = engine_store::place_at(st.len(), j);
    engine_rows::telegram_in(st, at)
}

// A telegram after the last one that waits.
fn put_last(st: &mut [i32], t: Telegram)
    requires { Laid st.old × (waiting st.old < places) }
    ensures { (s : List ℕ) → length st.old ≡ state_length s → st.new ≡ with_telegram s st.old t }
{
    let n = waiting_count(st);
    let at = engine_store::place_at(st.len(), n);
    engine_rows::put_words(st, at, engine_rows::words_of(t));
    engine_store::set_word(st, 0, (n + 1) as i32);
}

// "128 telegrams wait and one more is appended": 8; "a seventeenth of its class": 12. The state then stays as it was.
pub fn append(st: &mut [i32], t: Telegram) -> Result<(), u8>
    requires { Laid st.old }
    ensures change { (s : List ℕ) → length st.old ≡ state_length s → appended s st.old t ≡ changed_to result st.new }
    ensures kept { OnErr result (st.new ≡ st.old) }
{
    let n = waiting_count(st);
    if PLACES <= n {
        return Err(8);
    }
    if engine_classes::class_full(st, n, t) {
        return Err(12);
    }
    put_last(st, t);
    Ok(())
}
