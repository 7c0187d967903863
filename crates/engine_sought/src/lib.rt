// The telegram that an event takes, and whether its refusal may have work to undo.
#![tactic(auto)]

ghost use Rattle.std.specs.Prelude.{List, ◌≡◌, ℕ, length};
ghost use Rattle.machine.specs.State.{state_length};
ghost use Rattle.machine.specs.Valid.{OfSheet};
ghost use Rattle.machine_events.specs.Sought.{sought_at, may_undo};
ghost use Rattle.engine_queue.specs.Laid.{Laid};
ghost use Rattle.engine_sought.specs.Taken.{TakenFrom};

use engine_cells::Yard;
use machine::Telegram;
use machine_events::Event;

// The number of the telegram that an event takes; the number behind the last if there is none.
pub fn sought(st: &[i32], e: Event) -> usize
    requires { Laid st.now }
    ensures { (s : List ℕ) → length st.now ≡ state_length s → result ≡ sought_at s st.now e }
{
    match e {
        Event::Malformed => 0,
        Event::Outside(t) => 0,
        Event::Deliver { sender, receiver } => engine_searching::oldest_external(
            st, sender, receiver,
        ),
        Event::Corrupt { sender, receiver } => engine_searching::oldest_external(
            st, sender, receiver,
        ),
        Event::Inner { receiver } => engine_searching::oldest_internal(st, receiver),
        Event::Slice => 0,
    }
}

// Whether a refusal may have work to undo.
pub fn may_undo(yard: &Yard, st: &[i32], e: Event, j: usize) -> bool
    requires { OfSheet yard.now.sheet.sheet.now st.now × (j ≡ sought_at yard.now.sheet.sheet.now st.now e) }
    ensures { result ≡ may_undo yard.now.sheet.sheet.now st.now e }
{
    match e {
        Event::Malformed => false,
        Event::Outside(t) => false,
        Event::Deliver { sender, receiver } => {
            if engine_valid_words::is_below(receiver, engine_valid_values::externals(&yard.sheet)) {
                return false;
            }
            j < engine_queue::waiting_count(st)
        }
        Event::Corrupt { sender, receiver } => j < engine_queue::waiting_count(st),
        Event::Inner { receiver } => j < engine_queue::waiting_count(st),
        Event::Slice => true,
    }
}

// Takes the telegram numbered j: "is removed, later ones close up".
pub fn take(st: &mut [i32], j: usize) -> Option<Telegram>
    requires { Laid st.old }
    ensures { (s : List ℕ) → OfSheet s st.old → TakenFrom s st.old j result st.new }
{
    if engine_queue::waiting_count(st) <= j {
        return None;
    }
    let t = engine_queue::telegram_at(st, j);
    engine_removing::remove(st, j);
    Some(t)
}
