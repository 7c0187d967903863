// Whether a class of telegrams is full.
#![tactic(auto)]

ghost use Rattle.std.specs.Prelude.{◌≡◌, List, ℕ, ◌+◌, ◌≤◌, length, leb};
ghost use Rattle.machine.specs.State.{places, state_length, waiting, telegram_in, same_class, waiting_like, class_limit};
ghost use Rattle.engine_store.specs.Layout.{shortest};

use machine::Telegram;

// How many of a class can wait: "At most 16 telegrams may wait for one sender, receiver and class".
pub const CLASS_LIMIT: usize = 16;

// Whether the telegram there has t's sender, receiver and class.
fn same_class(st: &[i32], at: usize, t: Telegram) -> bool
    requires { at + 8 ≤ length st.now }
    ensures { result ≡ same_class t (telegram_in st.now at) }
{
    t.sender == st[at] && t.receiver == st[at + 1] && (t.port == -1) == (st[at + 2] == -1)
}

// Whether t's class is full, n being how many wait in all. From `last` on as many are left to look at as
// it still needs, so that behind it there is nothing to find; each one that is found moves it on.
pub fn class_full(st: &[i32], n: usize, t: Telegram) -> bool
    requires { (n ≡ waiting st.now) × (n ≤ places) × (shortest ≤ length st.now) }
    ensures { (s : List ℕ) → length st.now ≡ state_length s → result ≡ leb class_limit (waiting_like s st.now t) }
{
    if n < CLASS_LIMIT {
        return false;
    }
    let mut at = engine_store::place_at(st.len(), 0);
    let end = engine_store::place_at(st.len(), n);
    let mut last = engine_store::place_at(st.len(), n - CLASS_LIMIT);
    // A while, as its end moves while it runs.
    while at <= last {
        if same_class(st, at, t) {
            last += 8;
            if last == end {
                return true;
            }
        }
        at += 8;
    }
    false
}
