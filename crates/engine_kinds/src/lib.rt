// What each kind of event does to a state of the sheet.
#![tactic(auto)]

ghost use Rattle.std.specs.Prelude.{List, ◌≡◌, ℕ, length};
ghost use Rattle.machine.specs.State.{state_length};
ghost use Rattle.machine.specs.Play.{ended, outside, slice, limit_of};
ghost use Rattle.machine_events.specs.Event.{happens_by};
ghost use Rattle.engine_queue.specs.Laid.{Laid};
ghost use Rattle.engine_kinds.specs.Happens.{Happens};
ghost use Rattle.machine.specs.Valid.{OfSheet};

use engine_answering::answered;
use engine_cells::Yard;
use machine::{Answer, Telegram};
use machine_events::Event;

// 1: "external s sends to bound r on port p external name n; appended"
fn sent_outside(st: &mut [i32], t: Telegram) -> Answer
    requires { Laid st.old }
    ensures { (s : List ℕ) → length st.old ≡ state_length s → ended result st.new ≡ outside s st.old t }
{
    match engine_queue::append(st, t) {
        Ok(()) => answered(0, 0),
        Err(number) => answered(number, 0),
    }
}

// 5: "A refused Slice undoes all of it"
fn sliced(yard: &Yard, old: &[i32], st: &mut [i32]) -> Answer
    requires { OfSheet yard.now.sheet.sheet.now st.old × (old.now ≡ st.old) }
    ensures { ended result st.new ≡ slice yard.now.sheet.sheet.now old.now }
{
    match engine_clocks::slice(yard, st) {
        Ok(()) => answered(0, 0),
        Err(number) => {
            engine_copies::copy(old, st);
            answered(number, 0)
        }
    }
}

// An event on a state of the sheet, j being the number of the telegram that it takes. `old` is a copy of
// the state where there may be work to undo.
pub fn happened(yard: &Yard, old: &[i32], st: &mut [i32], e: Event, j: usize) -> Answer
    requires { Happens yard.now.sheet.sheet.now old.now st.old e j }
    ensures { ended result st.new ≡ happens_by yard.now.sheet.sheet.now (limit_of yard.now.sheet.sheet.now) st.old e }
{
    match e {
        Event::Malformed => answered(4, 0),
        Event::Outside(t) => sent_outside(st, t),
        Event::Deliver { sender, receiver } => {
            let taken = engine_sought::take(st, j);
            match taken {
                None => answered(5, 0),
                Some(t) => engine_delivery::delivers(yard, old, st, t),
            }
        }
        Event::Corrupt { sender, receiver } => {
            let taken = engine_sought::take(st, j);
            match taken {
                None => answered(5, 0),
                Some(t) => engine_delivery::panicked(
                    yard,
                    old,
                    st,
                    engine_valid_words::number(t.receiver),
                ),
            }
        }
        Event::Inner { receiver } => {
            let taken = engine_sought::take(st, j);
            match taken {
                None => answered(5, 0),
                Some(t) => engine_delivery::reacts(yard, old, st, t),
            }
        }
        Event::Slice => sliced(yard, old, st),
    }
}
