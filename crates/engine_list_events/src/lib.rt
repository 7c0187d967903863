// Plays a list of events on from a state of the sheet.
#![tactic(auto)]

ghost use Rattle.std.specs.Prelude.{◌≡◌};
ghost use Rattle.machine.specs.Lists.{events_of};
ghost use Rattle.machine_lists.specs.Words.{events_in, written, in_words};
ghost use Rattle.machine.specs.Play.{limit_of};
ghost use Rattle.engine_list_events.specs.Room.{Room};
ghost use Rattle.machine.specs.Valid.{OfSheet};

use engine_cells::Yard;
use machine::{ANSWER_WORDS, EVENT_WORDS};

// Plays events, nine words each, on from a state of the sheet, which becomes the one that the list
// leaves. Each answer goes into eleven words: number, steps, how many waiting telegrams were dropped,
// 1 if one is handed outside, then its receiver, port, name and four data.
pub fn play_on(yard: &Yard, events: &[i32], st: &mut [i32], spare: &mut [i32], answers: &mut [i32])
    requires { Room yard.now.sheet.sheet.now events.now st.old spare.old answers.old }
    ensures { OfSheet yard.now.sheet.sheet.now st.new × (written answers.new st.new ≡ in_words (events_of yard.now.sheet.sheet.now (limit_of yard.now.sheet.sheet.now) st.old (events_in events.now))) }
{
    // No event takes more steps than the limit, which has 16 bits: so the steps of an answer are a word.
    let limit = engine_limit::limit(&yard.sheet);
    let count = events.len() / EVENT_WORDS;
    for i in 0..count {
        let from = EVENT_WORDS * i;
        let to = from + EVENT_WORDS;
        let a = engine::next(yard, st, spare, &events[from..to]);
        prove!(a.steps <= limit);
        engine_answers::put_answer(answers, ANSWER_WORDS * i, a);
    }
}
