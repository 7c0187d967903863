// Replays calls from standard input and prints each answer on a line. A call is its kind (0 check,
// 1 start, 2 event, 3 a run), the sheet's length and the sheet; for start the result state's
// length; for event the old state's length and words, the result's length, the event's length and
// words; for a run the number of its events and nine words for each, and what it prints is the
// listing of `play`. Numbers are 32-bit little-endian. The lent result is filled with 777. An
// incomplete last call ends it, a run after the events that came, and so does a kind or a length
// that it doesn't take; and an answer that can't be written or an input that can't be read, which is
// said on standard error.
#![tactic(auto)]

ghost use Rattle.std.specs.Prelude.{◌+◌, ◌≤◌, ◌≡◌, length, IfOk};
ghost use Rattle.sheet_rules.specs.Check.{check_number};

use machine::{Answer, Telegram};
use program_events::Stopped;
use program_input::{EVENT_BYTES, Unread};
use program_text::Unwritten;
use sheet_rules::Checked;
use std::io::{Read, Write};

// The longest sheet, state and event that it takes.
const SHEET: usize = 70000;

const STATE: usize = 6000;

const EVENT: usize = 16;

// Why no more calls are replayed. What failed was said on standard error.
#[derive(Clone, Copy)]
enum Unreplayed {
    // the call isn't whole, or it is one that isn't taken
    NotTaken,
    Stopped(Stopped),
}

impl From<Stopped> for Unreplayed {
    fn from(why: Stopped) -> Unreplayed {
        Unreplayed::Stopped(why)
    }
}

impl From<Unread> for Unreplayed {
    fn from(why: Unread) -> Unreplayed {
        Unreplayed::Stopped(Stopped::Unread(why))
    }
}

impl From<Unwritten> for Unreplayed {
    fn from(why: Unwritten) -> Unreplayed {
        Unreplayed::Stopped(Stopped::Unwritten(why))
    }
}

// Reads as many bytes as there is room for.
fn read_whole<R: Read, E: Eprint>(
    from: &mut R,
    errors: &E,
    room: &mut [u8],
) -> Result<(), Unreplayed> {
    let came = program_input::read_all(from, errors, room)?;
    if came < room.len() {
        return Err(Unreplayed::NotTaken);
    }
    Ok(())
}

fn read_number<R: Read, E: Eprint>(from: &mut R, errors: &E) -> Result<usize, Unreplayed> {
    let mut bytes = [0u8; 4];
    read_whole(from, errors, &mut bytes)?;
    Ok(engine_words::number(&bytes, 0) as usize)
}

// Reads the length of a sheet, a state or an event. One of more than `most` isn't taken.
fn read_length<R: Read, E: Eprint>(
    from: &mut R,
    errors: &E,
    most: usize,
) -> Result<usize, Unreplayed>
    ensures { IfOk result (λ n. n ≤ most) }
{
    let length = read_number(from, errors)?;
    if most < length {
        return Err(Unreplayed::NotTaken);
    }
    Ok(length)
}

// Reads as many words as there is room for.
fn read_words<R: Read, E: Eprint>(
    from: &mut R,
    errors: &E,
    out: &mut [i32],
) -> Result<(), Unreplayed>
    requires { length out.old ≤ 6000 }
{
    let mut bytes = [0u8; 24000];
    let size = 4 * out.len();
    read_whole(from, errors, &mut bytes[..size])?;
    engine_words::words(&bytes, 0, out);
    Ok(())
}

// The words that end a line.
fn print_words<W: Write, E: Eprint>(
    to: &mut W,
    errors: &E,
    words: &[i32],
) -> Result<(), Unwritten> {
    let [first, rest @ ..] = words else {
        return program_text::write_out(to, errors, b"-\n");
    };
    let mut out = [0u8; 32768];
    let mut at = program_text::put_signed(&mut out, 0, *first);
    for z in rest {
        let place = program_text::with_room(to, errors, &out, at, 23)?;
        let next = program_text::put(&mut out, place, b',');
        at = program_text::put_signed(&mut out, next, *z);
    }
    let end = program_text::put(&mut out, at, b'\n');
    program_text::write_out(to, errors, &out[..end])
}

fn put_handed(out: &mut [u8], at: usize, h: Option<Telegram>) -> usize
    requires { at + 153 ≤ length out.old }
    ensures { result ≤ at + 153 }
{
    match h {
        None => program_text::put(out, at, b'-'),
        Some(t) => program_listing::put_telegram(out, at, b',', t),
    }
}

fn print_start<W: Write, E: Eprint>(
    to: &mut W,
    errors: &E,
    a: Answer,
    res: &[i32],
) -> Result<(), Unwritten> {
    let mut out = [0u8; 42];
    let counts = program_listing::put_counts(&mut out, 0, a.number, a.steps);
    let end = program_text::put(&mut out, counts, b' ');
    program_text::write_out(to, errors, &out[..end])?;
    print_words(to, errors, res)
}

fn print_event<W: Write, E: Eprint>(
    to: &mut W,
    errors: &E,
    a: Answer,
    res: &[i32],
) -> Result<(), Unwritten> {
    let mut out = [0u8; 196];
    let counts = program_listing::put_counts(&mut out, 0, a.number, a.steps);
    let next = program_text::put(&mut out, counts, b' ');
    let h = a.handed;
    let handed = put_handed(&mut out, next, h);
    let end = program_text::put(&mut out, handed, b' ');
    program_text::write_out(to, errors, &out[..end])?;
    print_words(to, errors, res)
}

// The paper's number. `Checked` and `From` are both from elsewhere, so this can be no `From` of a `u64`.
fn answer(r: Checked) -> u64
    ensures { result ≡ check_number r }
{
    match r {
        Checked::Passed => 0,
        Checked::Shape => 1,
        Checked::Static => 2,
    }
}

fn replay_check<W: Write, E: Eprint>(
    to: &mut W,
    errors: &E,
    sheet: &[u8],
) -> Result<(), Unwritten> {
    let mut out = [0u8; 21];
    let number = program_text::put_decimal(&mut out, 0, answer(checker::check(sheet)));
    let end = program_text::put(&mut out, number, b'\n');
    program_text::write_out(to, errors, &out[..end])
}

fn replay_start<R: Read, W: Write, E: Eprint>(
    from: &mut R,
    to: &mut W,
    errors: &E,
    sheet: &[u8],
) -> Result<(), Unreplayed> {
    let length = read_length(from, errors, STATE)?;
    let mut result = [777i32; STATE];
    let a = engine::start(sheet, &mut result[..length]);
    print_start(to, errors, a, &result[..length])?;
    Ok(())
}

fn replay_event<R: Read, W: Write, E: Eprint>(
    from: &mut R,
    to: &mut W,
    errors: &E,
    sheet: &[u8],
) -> Result<(), Unreplayed> {
    let before = read_length(from, errors, STATE)?;
    let mut old = [0i32; STATE];
    read_words(from, errors, &mut old[..before])?;
    let length = read_length(from, errors, STATE)?;
    let count = read_length(from, errors, EVENT)?;
    let mut ev = [0i32; EVENT];
    read_words(from, errors, &mut ev[..count])?;
    let mut result = [777i32; STATE];
    let a = engine::event(sheet, &old[..before], &mut result[..length], &ev[..count]);
    print_event(to, errors, a, &result[..length])?;
    Ok(())
}

// Reads past `count` events.
fn skip_events<R: Read, E: Eprint>(
    from: &mut R,
    errors: &E,
    count: usize,
) -> Result<(), Unreplayed> {
    let mut ev = [0u8; EVENT_BYTES];
    for _ in 0..count {
        read_whole(from, errors, &mut ev)?;
    }
    Ok(())
}

// After a start other than 0 the events are still there.
fn replay_run<R: Read, W: Write, E: Eprint>(
    from: &mut R,
    to: &mut W,
    errors: &E,
    sheet: &[u8],
) -> Result<(), Unreplayed> {
    let count = read_number(from, errors)?;
    let played = program_runs::play(from, to, errors, sheet, count as u64);
    played.end?;
    if played.number != 0 {
        skip_events(from, errors, count)?;
    }
    Ok(())
}

fn replay<R: Read, W: Write, E: Eprint>(
    from: &mut R,
    to: &mut W,
    errors: &E,
    kind: usize,
    sheet: &[u8],
) -> Result<(), Unreplayed> {
    match kind {
        0 => replay_check(to, errors, sheet)?,
        1 => replay_start(from, to, errors, sheet)?,
        2 => replay_event(from, to, errors, sheet)?,
        3 => replay_run(from, to, errors, sheet)?,
        _ => return Err(Unreplayed::NotTaken),
    }
    Ok(())
}

// `sheet` is room for any sheet that it takes, cleared once for all calls.
fn replay_next<R: Read, W: Write, E: Eprint>(
    from: &mut R,
    to: &mut W,
    errors: &E,
    sheet: &mut [u8],
) -> Result<(), Unreplayed>
    requires { length sheet.old ≡ 70000 }
{
    let kind = read_number(from, errors)?;
    let size = read_length(from, errors, SHEET)?;
    read_whole(from, errors, &mut sheet[..size])?;
    replay(from, to, errors, kind, &sheet[..size])
}

fn main(rt: HostRuntime) {
    if program_runs::has_argument(&rt, 1) {
        let _ = rt.eprintln(
            "use: conformance\nReplays calls from standard input and writes each answer on a line of standard output.",
        );
        return;
    }
    let mut from = rt.stdin();
    let mut to = rt.stdout();
    let mut sheet = [0u8; SHEET];
    for _ in 0..1000000000000u64 {
        if replay_next(&mut from, &mut to, &rt, &mut sheet).is_err() {
            return;
        }
    }
}
