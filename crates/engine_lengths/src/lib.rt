// Tests of lengths, by numbers alone.
#![tactic(auto)]

ghost use Rattle.std.specs.Prelude.{◌≡◌, ◌*◌, ◌/◌, ◌%◌, ◌≤◌, eqb};
ghost use Rattle.sheet.specs.All.{◌and◌};
ghost use Rattle.sheet_rules.specs.Shape.{most_cells};
ghost use Rattle.machine.specs.Play.{words_of_event};
ghost use Rattle.engine_store.specs.Layout.{words_with};
ghost use Rattle.machine_lists.specs.Words.{words_of_answer};

use machine::{ANSWER_WORDS, EVENT_WORDS};

// Whether a state with that many cells has so many words.
pub fn is_state(cells: usize, words: usize) -> bool
    requires { cells ≤ most_cells }
    ensures { result ≡ eqb words (words_with cells) }
{
    words == engine_store::state_length(cells)
}

// Whether words are whole events, and as many others are room for an answer to each: by quotients, so
// that no product can wrap.
pub fn is_list(events: usize, answers: usize) -> bool
    ensures { result ≡ (eqb (events % words_of_event) 0 and eqb answers (words_of_answer * (events / words_of_event))) }
{
    if events % EVENT_WORDS != 0 {
        return false;
    }
    if answers % ANSWER_WORDS != 0 {
        return false;
    }
    answers / ANSWER_WORDS == events / EVENT_WORDS
}
