// Plays: start, one event, and one event after another.
#![tactic(auto)]

ghost use Rattle.std.specs.Prelude.{◌≡◌, length};
ghost use Rattle.sheet_rules.specs.declared.Checked.TheVariants.{Passed};
ghost use Rattle.sheet_rules.specs.Check.{check_of};
ghost use Rattle.machine.specs.Lists.{StartGives, EventGives};
ghost use Rattle.machine.specs.Play.{limit_of};
ghost use Rattle.machine.specs.Valid.{OfSheet};
ghost use Rattle.machine.specs.State.{state_length};

use engine_answering::answered;
use engine_cells::{LAYOUT, Yard};
use machine::Answer;
use sheet_opened::Reader;
use sheet_rules::Checked;

// The next event of a list: the sheet is passed, the state is of it and becomes the state that goes
// on; `spare` is a second state's room, used where there may be work to undo.
pub fn next(yard: &Yard, st: &mut [i32], spare: &mut [i32], ev: &[i32]) -> Answer
    requires { OfSheet yard.now.sheet.sheet.now st.old × (length spare.old ≡ length st.old) }
    ensures { EventGives yard.now.sheet.sheet.now (limit_of yard.now.sheet.sheet.now) st.old st.old ev.now result st.new }
{
    let e = engine_valid_events::event_of(&yard.sheet, ev);
    let j = engine_sought::sought(st, e);
    let needed = engine_sought::may_undo(yard, st, e, j);
    if needed {
        engine_copies::copy(st, spare);
    }
    engine_kinds::happened(yard, spare, st, e, j)
}

// An event on any sheet, state and words.
pub fn event(sheet: &[u8], old: &[i32], res: &mut [i32], ev: &[i32]) -> Answer
    ensures { EventGives sheet.now (limit_of sheet.now) old.now res.old ev.now result res.new }
{
    let opened = Reader::new(sheet);
    match checker::check_opened(&opened) {
        Checked::Shape => answered(1, 0),
        Checked::Static => answered(2, 0),
        Checked::Passed => on_passed(&opened, old, res, ev),
    }
}

// The table of cells, 17 KB, is filled where it lies: a call of `Yard::new` moves it.
fn on_passed(sheet: &Reader, old: &[i32], res: &mut [i32], ev: &[i32]) -> Answer
    requires { check_of sheet.now.sheet.now ≡ Passed }
    ensures { EventGives sheet.now.sheet.now (limit_of sheet.now.sheet.now) old.now res.old ev.now result res.new }
{
    let mut yard = Yard {
        sheet: *sheet,
        cells: [0usize; LAYOUT],
        count: 0,
    };
    yard.count = engine_cells::fill(sheet, &mut yard.cells);
    if !engine_lengths::is_state(yard.count, old.len()) {
        return answered(3, 0);
    }
    if !engine_lengths::is_state(yard.count, res.len()) {
        return answered(3, 0);
    }
    if !engine_valid_state::content_fits(&yard, old) {
        return answered(3, 0);
    }
    let e = engine_valid_events::event_of(&yard.sheet, ev);
    if engine_valid_events::is_malformed(e) {
        return answered(4, 0);
    }
    engine_copies::copy(old, res);
    let j = engine_sought::sought(res, e);
    engine_kinds::happened(&yard, old, res, e, j)
}

// Start on a passed sheet.
pub fn begin(yard: &Yard, st: &mut [i32]) -> Answer
    requires { length st.old ≡ state_length yard.now.sheet.sheet.now }
    ensures { StartGives yard.now.sheet.sheet.now (limit_of yard.now.sheet.sheet.now) st.old result st.new }
{
    engine_starts::from_defaults(yard, st)
}

// Start on any sheet and state.
pub fn start(sheet: &[u8], res: &mut [i32]) -> Answer
    ensures { StartGives sheet.now (limit_of sheet.now) res.old result res.new }
{
    let opened = Reader::new(sheet);
    match checker::check_opened(&opened) {
        Checked::Shape => answered(1, 0),
        Checked::Static => answered(2, 0),
        Checked::Passed => start_passed(&opened, res),
    }
}

// The table is filled where it lies here too.
fn start_passed(sheet: &Reader, res: &mut [i32]) -> Answer
    requires { check_of sheet.now.sheet.now ≡ Passed }
    ensures { StartGives sheet.now.sheet.now (limit_of sheet.now.sheet.now) res.old result res.new }
{
    let mut yard = Yard {
        sheet: *sheet,
        cells: [0usize; LAYOUT],
        count: 0,
    };
    yard.count = engine_cells::fill(sheet, &mut yard.cells);
    if !engine_lengths::is_state(yard.count, res.len()) {
        return answered(3, 0);
    }
    begin(&yard, res)
}
