// Plays whole lists of events.
#![tactic(auto)]

ghost use Rattle.std.specs.Prelude.{◌≡◌};
ghost use Rattle.machine.specs.Play.{limit_of};
ghost use Rattle.machine_lists.specs.ListCall.{listed, list_call};

use engine_answering::answered;
use engine_cells::Yard;
use machine::Answer;
use sheet_opened::Reader;
use sheet_rules::Checked;

// Start and a whole list on any sheet and words: `events` has nine words for each event, `answers`
// eleven, `st` and `spare` are as long as the sheet's states. Gives start's answer; after 0 `answers` has
// every event's. `st` is left as the list leaves it, `spare` is room to work in.
pub fn play(
    sheet: &[u8],
    events: &[i32],
    st: &mut [i32],
    spare: &mut [i32],
    answers: &mut [i32],
) -> Answer
    ensures { listed result st.new answers.new ≡ list_call sheet.now (limit_of sheet.now) events.now st.old spare.old answers.old }
{
    let opened = Reader::new(sheet);
    match checker::check_opened(&opened) {
        Checked::Shape => answered(1, 0),
        Checked::Static => answered(2, 0),
        Checked::Passed => play_passed(&Yard::new(opened), events, st, spare, answers),
    }
}

fn play_passed(
    yard: &Yard,
    events: &[i32],
    st: &mut [i32],
    spare: &mut [i32],
    answers: &mut [i32],
) -> Answer
    ensures { listed result st.new answers.new ≡ list_call yard.now.sheet.sheet.now (limit_of yard.now.sheet.sheet.now) events.now st.old spare.old answers.old }
{
    if !engine_lengths::is_state(yard.count, st.len()) {
        return answered(3, 0);
    }
    if !engine_lengths::is_state(yard.count, spare.len()) {
        return answered(3, 0);
    }
    if !engine_lengths::is_list(events.len(), answers.len()) {
        return answered(4, 0);
    }
    let a = engine::begin(yard, st);
    if a.number == 0 {
        engine_list_events::play_on(yard, events, st, spare, answers);
    }
    a
}
