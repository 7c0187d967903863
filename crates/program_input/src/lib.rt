// What the programs read: bytes until there are enough, a sheet behind its length, and events as they
// come. That a read failed is said on standard error here, where it is known why, so a caller only
// stops.
#![tactic(auto)]

ghost use Rattle.std.specs.Prelude.{ℕ, ◌+◌, ◌*◌, ◌-◌, ◌%◌, ◌<◌, ◌≤◌, ◌≡◌, ◌++◌, length, get_or, take, slice_range, MatchResult, IfOk, IfErr, IfSome, Some};
ghost use Rattle.std.specs.Io.KnownBytes.{Consumes, Keeps, IsAtEnd, ReadConsumes};
ghost use Rattle.program_input.specs.Input.{sheet_size, sheet_in, bytes_of_event, room_bytes};

use std::io::Read;

// That a read failed, and how many bytes of what was asked for had come before.
#[derive(Clone, Copy)]
pub struct Unread {
    pub count: usize,
}

// One read. An error is a failure and not the input's end, and brings nothing.
fn read_some<R: Read, E: Eprint>(from: &mut R, errors: &E, room: &mut [u8]) -> Result<usize, Unread>
    ensures count { IfOk result (λ n. n ≤ length room.old) }
    ensures failed { IfErr result (λ e. e.count ≡ 0) }
    ensures bytes { ReadConsumes (R.remaining from.old) (R.remaining from.new) result room.new }
{
    from.read(room).map_err(|why| {
        let _ = errors.eprintln(format_args!("the input can't be read: {why}"));
        Unread { count: 0 }
    })
}

// Reads until the room is full, the input ends or a read fails, and gives how many bytes came: fewer than
// there was room for are the input's end.
pub fn read_all<R: Read, E: Eprint>(
    from: &mut R,
    errors: &E,
    room: &mut [u8],
) -> Result<usize, Unread>
    ensures count { IfOk result (λ n. n ≤ length room.old) }
    ensures failed { IfErr result (λ e. e.count < length room.old) }
    ensures bytes { MatchResult result
        (λ n. Consumes (R.remaining from.old) (R.remaining from.new) (take n room.new))
        (λ e. Consumes (R.remaining from.old) (R.remaining from.new) (take e.count room.new)) }
    ensures end { IfOk result (λ n. n < length room.old → IsAtEnd (R.remaining from.new)) }
{
    let mut count: usize = 0;
    // A while, as each read tells how many bytes came.
    while count < room.len() {
        match read_some(from, errors, &mut room[count..]) {
            Ok(0) => return Ok(count),
            Ok(n) => count += n,
            Err(_) => return Err(Unread { count }),
        }
    }
    Ok(count)
}

// A sheet's length as far as it counts, where `came` of its four bytes came: every sheet of more than
// 65,535 bytes is refused alike. An incomplete length is 0.
#[tactic(auto, using(crate::proofs::Answers::size_cut, crate::proofs::Answers::size_whole))]
fn sheet_size(head: &[u8; 4], came: usize) -> usize
    ensures { (result ≡ sheet_size head.now came) × (result ≤ 65536) }
{
    if came < 4 {
        return 0;
    }
    let n = engine_words::number(head, 0) as usize;
    n.min(65536)
}

// Reads a sheet's length and the sheet, and gives how many bytes the sheet has. A sheet cut short is the
// bytes that came; so many of the sheet's had come where a read fails.
pub fn read_sheet<R: Read, E: Eprint>(
    from: &mut R,
    errors: &E,
    sheet: &mut [u8],
) -> Result<usize, Unread>
    requires { length sheet.old ≡ 65536 }
    ensures fits { IfOk result (λ n. n ≤ 65536) }
    ensures failed { IfErr result (λ e. e.count < 65536) }
    ensures bytes { IfOk result (λ n. IfSome (R.remaining from.old)
        (λ xs. (take n sheet.new ≡ sheet_in xs)
        × Consumes (Some xs) (R.remaining from.new) (take 4 xs ++ sheet_in xs))) }
{
    let mut head = [0u8; 4];
    let Ok(came) = read_all(from, errors, &mut head) else {
        return Err(Unread { count: 0 });
    };
    let size = sheet_size(&head, came);
    read_all(from, errors, &mut sheet[..size])
}

// How many events are read at once, at most, and the bytes of one and of so many.
pub const EVENTS: usize = 1000;

pub const EVENT_BYTES: usize = 36;

pub const EVENT_ROOM: usize = EVENTS * EVENT_BYTES;

// How many bytes there is room for, or `left` events where these take fewer.
fn room(left: u64) -> usize
    ensures { (result ≤ room_bytes) × (result ≤ bytes_of_event * left) × (0 < left → bytes_of_event ≤ result) }
{
    EVENT_BYTES * left.min(EVENTS as u64) as usize
}

// Reads what is there, behind the `have` bytes of an event that isn't whole yet and not past `left`
// events, and waits only where nothing is there. Gives how many bytes there are then: `have` again
// where the input has ended. A read that fails brings nothing.
pub fn read_more<R: Read, E: Eprint>(
    from: &mut R,
    errors: &E,
    events: &mut [u8],
    have: usize,
    left: u64,
) -> Result<usize, Unread>
    requires { (length events.old ≡ room_bytes) × (have < bytes_of_event) × (0 < left) }
    ensures have { IfOk result (λ n. have ≤ n) }
    ensures fits { IfOk result (λ n. n ≤ room_bytes) }
    ensures left { IfOk result (λ n. n ≤ bytes_of_event * left) }
    ensures failed { IfErr result (λ e. e.count ≡ 0) }
    ensures kept { take have events.new ≡ take have events.old }
    ensures bytes { MatchResult result
        (λ n. Consumes (R.remaining from.old) (R.remaining from.new) (slice_range events.new have n))
        (λ _. Keeps (R.remaining from.old) (R.remaining from.new)) }
    ensures end { IfOk result (λ n. n ≡ have → IsAtEnd (R.remaining from.new)) }
{
    let end = room(left);
    let n = read_some(from, errors, &mut events[have..end])?;
    Ok(have + n)
}

// Of the `came` first bytes, moves those behind the last whole event to the front, and gives how
// many they are.
pub fn keep_rest(events: &mut [u8], came: usize) -> usize
    requires { came ≤ length events.old }
    ensures { (result ≡ came % bytes_of_event) × ((k : ℕ) → k < result → get_or events.new k 0 ≡ get_or events.old (came - result + k) 0) }
{
    let rest = came % EVENT_BYTES;
    events.copy_within(came - rest..came, 0);
    rest
}
