// A running clock's tick.
#![tactic(auto)]

ghost use Rattle.std.specs.Prelude.{◌≡◌, List, true, ℕ, ◌+◌, ◌<◌, length};
ghost use Rattle.sheet.specs.Names.{names};
ghost use Rattle.sheet.specs.Sheet.{count_of};
ghost use Rattle.machine.specs.Values.{is_below};
ghost use Rattle.machine.specs.State.{state_length, word_of, appended};
ghost use Rattle.machine.specs.Play.{clock_telegram, ticks};
ghost use Rattle.engine_queue.specs.Changed.{changed_to};
ghost use Rattle.engine_ticks.specs.Running.{Running};

use machine::Telegram;

// "plus 1, or 6 at 2,147,483,647"
pub fn tick_timer(st: &mut [i32], at: usize) -> Result<(), u8>
    requires { Running st.old at }
    ensures { (s : List ℕ) (e : ℕ) → ticks s e 4 at st.old ≡ changed_to result st.new }
{
    let value = st[at + 1];
    if value == 2147483647 {
        return Err(6);
    }
    st[at + 1] = value + 1;
    Ok(())
}

// A clock's telegram is appended.
fn fire(st: &mut [i32], e: usize, at: usize) -> Result<(), u8>
    requires { Running st.old at × (e < 64) }
    ensures { (s : List ℕ) → length st.old ≡ state_length s → appended s st.old (clock_telegram e st.old at) ≡ changed_to result st.new }
{
    let telegram = Telegram {
        sender: e as i32,
        receiver: e as i32,
        port: -1,
        name: st[at + 3],
        d0: st[at + 4],
        d1: st[at + 5],
        d2: st[at + 6],
        d3: st[at + 7],
    };
    engine_queue::append(st, telegram)
}

// "at 1 its telegram is appended and it stops, otherwise minus 1"
pub fn tick_timeout(st: &mut [i32], e: usize, at: usize) -> Result<(), u8>
    requires { Running st.old at × (e < 64) }
    ensures { (s : List ℕ) → length st.old ≡ state_length s → is_below (word_of st.old (at + 3)) (count_of s names) ≡ true → ticks s e 5 at st.old ≡ changed_to result st.new }
{
    let value = st[at + 1];
    if value != 1 {
        st[at + 1] = value - 1;
        return Ok(());
    }
    fire(st, e, at)?;
    engine_store::set_cell(st, at, 0);
    Ok(())
}

// "at 0 its telegram is appended and value becomes period − 1, otherwise minus 1"
pub fn tick_cycler(st: &mut [i32], e: usize, at: usize) -> Result<(), u8>
    requires { Running st.old at × (e < 64) }
    ensures { (s : List ℕ) → length st.old ≡ state_length s → is_below (word_of st.old (at + 3)) (count_of s names) ≡ true → ticks s e 6 at st.old ≡ changed_to result st.new }
{
    let value = st[at + 1];
    if value != 0 {
        st[at + 1] = value - 1;
        return Ok(());
    }
    let period = st[at + 2];
    let next = period - 1;
    fire(st, e, at)?;
    engine_store::set_word(st, at + 1, next);
    Ok(())
}
