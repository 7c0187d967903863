// Plays a sheet with events from a reader and writes the listing to a writer.
#![tactic(auto)]

ghost use Rattle.std.specs.Prelude.{◌≡◌, length};
ghost use Rattle.program_runs.specs.Start.{StartAnswers};
ghost use Rattle.machine.specs.Valid.{OfSheet};
ghost use Rattle.machine.specs.State.{state_length};

use engine_cells::Yard;
use engine_store::LONGEST;
use machine::Answer;
use program_events::Stopped;
use program_text::Unwritten;
use sheet_opened::Reader;
use sheet_rules::Checked;
use std::env::FillError;
use std::io::{Read, Write};
use std::rt::{Env, Files};
use std::{fs, str};

// Start's answer, which there is in any case, and why the run stopped before its end, if it did.
#[derive(Clone, Copy)]
pub struct RunEnd {
    pub number: u8,
    pub end: Result<(), Stopped>,
}

// Why a sheet from a file isn't played to its end. It was said on standard error.
#[derive(Clone, Copy)]
pub enum Unplayed {
    NotOpened,
    Stopped(Stopped),
}

impl From<Stopped> for Unplayed {
    fn from(why: Stopped) -> Unplayed {
        Unplayed::Stopped(why)
    }
}

impl From<Unwritten> for Unplayed {
    fn from(why: Unwritten) -> Unplayed {
        Unplayed::Stopped(Stopped::Unwritten(why))
    }
}

fn print_start<W: Write, E: Eprint>(
    to: &mut W,
    errors: &E,
    number: u8,
    steps: u32,
) -> Result<(), Unwritten> {
    let mut out = [0u8; 48];
    let at = program_listing::put_start(&mut out, 0, number, steps);
    program_text::write_out(to, errors, &out[..at])
}

// A sheet that doesn't pass is refused in no step.
fn refused<W: Write, E: Eprint>(to: &mut W, errors: &E, number: u8) -> RunEnd
    ensures { result.number ≡ number }
{
    let end = print_start(to, errors, number, 0).map_err(Stopped::Unwritten);
    RunEnd { number, end }
}

// Writes start's answer and plays the events after one that is 0.
fn play_begun<R: Read, W: Write, E: Eprint>(
    from: &mut R,
    to: &mut W,
    errors: &E,
    yard: &Yard,
    st: &mut [i32],
    spare: &mut [i32],
    most: u64,
    begun: Answer,
) -> Result<(), Stopped>
    requires state { begun.number ≡ 0 → OfSheet yard.now.sheet.sheet.now st.old }
    requires spare { length spare.old ≡ length st.old }
{
    print_start(to, errors, begun.number, begun.steps)?;
    if begun.number == 0 {
        program_events::play_events(from, to, errors, yard, st, spare, most)?;
    }
    Ok(())
}

#[tactic(auto, using(crate::proofs::Kept::start_answers))]
fn play_states<R: Read, W: Write, E: Eprint>(
    from: &mut R,
    to: &mut W,
    errors: &E,
    yard: &Yard,
    st: &mut [i32],
    spare: &mut [i32],
    most: u64,
) -> RunEnd
    requires { (length st.old ≡ state_length yard.now.sheet.sheet.now) × (length spare.old ≡ length st.old) }
    ensures { StartAnswers yard.now.sheet.sheet.now result.number }
{
    let a = engine::begin(yard, st);
    let end = play_begun(from, to, errors, yard, st, spare, most, a);
    RunEnd {
        number: a.number,
        end,
    }
}

// There is room for the longest state.
fn play_passed<R: Read, W: Write, E: Eprint>(
    from: &mut R,
    to: &mut W,
    errors: &E,
    yard: &Yard,
    most: u64,
) -> RunEnd
    ensures { StartAnswers yard.now.sheet.sheet.now result.number }
{
    let mut st = [0i32; LONGEST];
    let mut spare = [0i32; LONGEST];
    let n = engine_store::state_length(yard.count);
    play_states(from, to, errors, yard, &mut st[..n], &mut spare[..n], most)
}

// Plays a sheet with at most `most` events from a reader, and gives start's answer: after one
// other than 0 no event is read. What follows the events stays unread. After a line that can't be
// written or a read that fails nothing is played, read or written any more.
pub fn play<R: Read, W: Write, E: Eprint>(
    from: &mut R,
    to: &mut W,
    errors: &E,
    sheet: &[u8],
    most: u64,
) -> RunEnd
    ensures { StartAnswers sheet.now result.number }
{
    let opened = Reader::new(sheet);
    match checker::check_opened(&opened) {
        Checked::Shape => refused(to, errors, 1),
        Checked::Static => refused(to, errors, 2),
        Checked::Passed => play_passed(from, to, errors, &Yard::new(opened), most),
    }
}

// The most events that are taken.
const MOST: u64 = 18446744073709550000;

// Reads a sheet's length as a 32-bit little-endian number and the sheet, and plays it with the events
// behind it. It stops at the first line that can't be written and where a read fails.
pub fn desk<R: Read, W: Write, E: Eprint>(
    from: &mut R,
    to: &mut W,
    errors: &E,
) -> Result<(), Stopped> {
    let mut sheet = [0u8; 65536];
    let size = program_input::read_sheet(from, errors, &mut sheet)?;
    play(from, to, errors, &sheet[..size], MOST).end
}

// The same from a file. One that can't be opened is said on standard error, and nothing is played; nor
// is one whose name isn't UTF-8.
pub fn desk_from<F: Files, W: Write, E: Eprint>(
    files: &F,
    to: &mut W,
    errors: &E,
    name: &[u8],
) -> Result<(), Unplayed> {
    let Ok(path) = str::from_utf8(name) else {
        let shown = name.escape_ascii();
        let _ = errors.eprintln(format_args!("{shown}: the name isn't UTF-8"));
        return Err(Unplayed::NotOpened);
    };
    let mut file = fs::open(files, path).map_err(|why| {
        let _ = errors.eprintln(format_args!("{path}: {why}"));
        Unplayed::NotOpened
    })?;
    desk(&mut file, to, errors)?;
    Ok(())
}

// Whether a program has an argument of this number; its own name is number 0.
pub fn has_argument<E: Env>(rt: &E, i: usize) -> bool {
    let mut first = [0u8; 1];
    !matches!(rt.arg(i, &mut first), Err(FillError::NotPresent))
}
