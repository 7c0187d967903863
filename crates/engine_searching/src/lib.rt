// The oldest telegram of those that an event may take.
#![tactic(auto)]

ghost use Rattle.std.specs.Prelude.{◌≡◌, List, ℕ, ◌+◌, ◌≤◌, Bool, length};
ghost use Rattle.machine.specs.declared.Telegram.{Telegram};
ghost use Rattle.machine.specs.State.{state_length, telegram_in};
ghost use Rattle.machine.specs.Play.{goes_from, inner_of, oldest};
ghost use Rattle.engine_queue.specs.Laid.{Laid};
ghost use Rattle.engine_searching.specs.Tests.{Asked, Tests};

// Whether the telegram there is external and goes from a to r.
fn goes(st: &[i32], at: usize, a: i32, r: i32) -> bool
    requires { at + 8 ≤ length st.now }
    ensures { result ≡ goes_from a r (telegram_in st.now at) }
{
    st[at + 2] != -1 && st[at] == a && st[at + 1] == r
}

// Whether the telegram there is internal and r's.
fn inner(st: &[i32], at: usize, r: i32) -> bool
    requires { at + 8 ≤ length st.now }
    ensures { result ≡ inner_of r (telegram_in st.now at) }
{
    st[at + 2] == -1 && st[at + 1] == r
}

// The oldest telegram that is sought, or the number behind the last. The test is told where one lies.
fn oldest<F: Fn(usize) -> bool>(st: &[i32], is_sought: F) -> usize
    requires laid { Laid st.now }
    requires asked { Asked st.now (F.pre is_sought) }
    ensures { (s : List ℕ) (p : Telegram → Bool) → length st.now ≡ state_length s → Tests st.now (F.post is_sought) p → result ≡ oldest s st.now p }
{
    let n = engine_queue::waiting_count(st);
    for j in 0..n {
        if is_sought(engine_store::place_at(st.len(), j)) {
            return j;
        }
    }
    n
}

// The oldest external telegram from a to r, or the number behind the last.
pub fn oldest_external(st: &[i32], a: i32, r: i32) -> usize
    requires { Laid st.now }
    ensures { (s : List ℕ) → length st.now ≡ state_length s → result ≡ oldest s st.now (goes_from a r) }
{
    oldest(st, |at| goes(st, at, a, r))
}

// The oldest internal telegram of r, or the number behind the last.
pub fn oldest_internal(st: &[i32], r: i32) -> usize
    requires { Laid st.now }
    ensures { (s : List ℕ) → length st.now ≡ state_length s → result ≡ oldest s st.now (inner_of r) }
{
    oldest(st, |at| inner(st, at, r))
}
