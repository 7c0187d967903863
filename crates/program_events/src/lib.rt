// Plays events as they come from a reader and lists their answers to a writer. An event is nine
// little-endian signed 32-bit words; an incomplete last event is ignored.
#![tactic(auto)]

ghost use Rattle.std.specs.Prelude.{◌≡◌, length, OnOk};
ghost use Rattle.std.specs.Io.KnownBytes.{Appends};
ghost use Rattle.program_events.specs.Room.{ListedRoom, RoundRoom};
ghost use Rattle.program_events.specs.Lines.{lines_of};
ghost use Rattle.machine.specs.Valid.{OfSheet};

use engine_cells::Yard;
use machine::{ANSWER_WORDS, EVENT_WORDS};
use program_input::{EVENT_BYTES, EVENT_ROOM, EVENTS, Unread};
use program_listing::LONGEST_LINE;
use program_text::Unwritten;
use std::io::{Read, Write};

// The room for the events that are taken at once, in words, for their answers in words and for text.
const WORDS: usize = EVENTS * EVENT_WORDS;

const ANSWERS: usize = EVENTS * ANSWER_WORDS;

const TEXT: usize = 24576;

// Why no more events are played. It was said on standard error.
#[derive(Clone, Copy)]
pub enum Stopped {
    Unread(Unread),
    Unwritten(Unwritten),
}

impl From<Unread> for Stopped {
    fn from(why: Unread) -> Stopped {
        Stopped::Unread(why)
    }
}

impl From<Unwritten> for Stopped {
    fn from(why: Unwritten) -> Stopped {
        Stopped::Unwritten(why)
    }
}

// Lists the answers to `count` events, both in words, before which `done` were listed, and writes all
// out. It stops at the first that can't be.
fn list_events<W: Write, E: Eprint>(
    to: &mut W,
    errors: &E,
    words: &[i32],
    answers: &[i32],
    count: usize,
    done: u64,
    out: &mut [u8],
) -> Result<(), Unwritten>
    requires { ListedRoom words.now answers.now count done out.old }
    ensures { OnOk result
        (Appends (W.contents to.old) (W.contents to.new) (lines_of words.now answers.now done count)) }
{
    let mut at: usize = 0;
    for i in 0..count {
        let kind = words[EVENT_WORDS * i];
        let a = engine_answers::answer_at(answers, ANSWER_WORDS * i);
        let end = program_listing::put_event(out, at, done + i as u64 + 1, kind, a);
        at = program_text::with_room(to, errors, out, end, LONGEST_LINE)?;
    }
    program_text::write_out(to, errors, &out[..at])
}

// Plays `count` events, before which `done` were played, and lists their answers. `words` and `answers` are room for a
// thousand events and their answers in words.
fn round<W: Write, E: Eprint>(
    to: &mut W,
    errors: &E,
    yard: &Yard,
    st: &mut [i32],
    spare: &mut [i32],
    events: &[u8],
    count: usize,
    words: &mut [i32],
    answers: &mut [i32],
    done: u64,
    out: &mut [u8],
) -> Result<(), Unwritten>
    requires { RoundRoom yard.now.sheet.sheet.now st.old spare.old events.now count words.old answers.old
        done out.old }
    ensures { OfSheet yard.now.sheet.sheet.now st.new }
{
    let n = EVENT_WORDS * count;
    let m = ANSWER_WORDS * count;
    engine_words::words(events, 0, &mut words[..n]);
    engine_list_events::play_on(yard, &words[..n], st, spare, &mut answers[..m]);
    list_events(to, errors, words, answers, count, done, out)
}

// Plays events as they come, `most` at most: those that came whole are played and listed before more
// are waited for. It stops at the first answer that can't be written and where a read fails.
pub fn play_events<R: Read, W: Write, E: Eprint>(
    from: &mut R,
    to: &mut W,
    errors: &E,
    yard: &Yard,
    st: &mut [i32],
    spare: &mut [i32],
    most: u64,
) -> Result<(), Stopped>
    requires { OfSheet yard.now.sheet.sheet.now st.old × (length spare.old ≡ length st.old) }
{
    let mut events = [0u8; EVENT_ROOM];
    let mut words = [0i32; WORDS];
    let mut answers = [0i32; ANSWERS];
    let mut out = [0u8; TEXT];
    let mut have: usize = 0;
    let mut done: u64 = 0;
    // A while, as the input tells how many events come at once.
    while done < most {
        let came = program_input::read_more(from, errors, &mut events, have, most - done)?;
        if came == have {
            return Ok(());
        }
        let count = came / EVENT_BYTES;
        round(
            to,
            errors,
            yard,
            st,
            spare,
            &events,
            count,
            &mut words,
            &mut answers,
            done,
            &mut out,
        )?;
        have = program_input::keep_rest(&mut events, came);
        done += count as u64;
    }
    Ok(())
}
