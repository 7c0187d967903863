// Text and numbers in a buffer that a program writes out in large pieces. Each function puts its
// text at `at` and gives the place behind it.
#![tactic(auto)]

ghost use Rattle.std.specs.Prelude.{ℕ, ◌+◌, ◌-◌, ◌<◌, ◌≤◌, ◌≡◌, [], ◌∷◌, length, take, IfOk, IsOk, OnOk};
ghost use Rattle.std.specs.Io.KnownBytes.{Appends};
ghost use Rattle.program_text.specs.Decimal.{decimal, signed, Put, place_with_room};

use std::io;
use std::io::{ErrorKind, Write};

// One byte.
pub fn put(out: &mut [u8], at: usize, b: u8) -> usize
    requires { at < length out.old }
    ensures { Put out.old at (b ∷ []) out.new result × (result ≤ at + 1) }
{
    out[at] = b;
    at + 1
}

pub fn put_bytes(out: &mut [u8], at: usize, bytes: &[u8]) -> usize
    requires { at + length bytes.now ≤ length out.old }
    ensures { Put out.old at bytes.now out.new result × (result ≤ at + length bytes.now) }
{
    let end = at + bytes.len();
    out[at..end].copy_from_slice(bytes);
    end
}

// A number's digits, the most significant first. They are put by hand: of what std prints with `write!`
// no contract says that it is `decimal n`.
pub fn put_decimal(out: &mut [u8], at: usize, n: u64) -> usize
    requires { at + 20 ≤ length out.old }
    ensures { Put out.old at (decimal n) out.new result × (result ≤ at + 20) }
{
    if n < 10 {
        return put(out, at, 48 + n as u8);
    }
    let last = put_decimal(out, at, n / 10);
    put(out, last, 48 + (n % 10) as u8)
}

// With a minus sign where z is below 0.
pub fn put_signed(out: &mut [u8], at: usize, z: i32) -> usize
    requires { at + 21 ≤ length out.old }
    ensures { Put out.old at (signed z) out.new result × (result ≤ at + 21) }
{
    if z < 0 {
        let next = put(out, at, b'-');
        return put_decimal(out, next, z.unsigned_abs() as u64);
    }
    put_decimal(out, at, z.unsigned_abs() as u64)
}

// That a text couldn't be written. Why not was said on standard error, where it was known, so a caller
// only stops.
#[derive(Clone, Copy)]
pub struct Unwritten;

// Writes a text out. The writer has its first bytes in any case, which `write_all` doesn't promise.
fn write_whole<W: Write>(to: &mut W, text: &[u8]) -> io::Result<()>
    ensures whole { OnOk result (Appends (W.contents to.old) (W.contents to.new) text.now) }
    ensures part { (n : ℕ) × (n ≤ length text.now)
        × Appends (W.contents to.old) (W.contents to.new) (take n text.now) }
{
    let mut done: usize = 0;
    while done < text.len() {
        let n = to.write(&text[done..])?;
        if n == 0 {
            return Err(io::Error::from(ErrorKind::WriteZero));
        }
        done += n;
    }
    to.flush()
}

// Writes a text out; the writer has its first bytes in any case.
pub fn write_out<W: Write, E: Eprint>(to: &mut W, errors: &E, text: &[u8]) -> Result<(), Unwritten>
    ensures whole { OnOk result (Appends (W.contents to.old) (W.contents to.new) text.now) }
    ensures part { (n : ℕ) × (n ≤ length text.now)
        × Appends (W.contents to.old) (W.contents to.new) (take n text.now) }
{
    if let Err(why) = write_whole(to, text) {
        let _ = errors.eprintln(format_args!("the output can't be written: {why}"));
        return Err(Unwritten);
    }
    Ok(())
}

// Writes the buffer's text out once there is less than `room` behind it, and gives the place where
// the text goes on.
#[tactic(auto, using(crate::proofs::Laws::room_there, crate::proofs::Laws::room_made))]
pub fn with_room<W: Write, E: Eprint>(
    to: &mut W,
    errors: &E,
    out: &[u8],
    at: usize,
    room: usize,
) -> Result<usize, Unwritten>
    requires { (at ≤ length out.now) × (room ≤ length out.now) }
    ensures place { IfOk result (λ p. p ≡ place_with_room (length out.now) at room) }
    ensures behind { IfOk result (λ p. p + room ≤ length out.now) }
    ensures there { at + room ≤ length out.now → IsOk result }
    ensures whole { IfOk result
        (λ p. Appends (W.contents to.old) (W.contents to.new) (take (at - p) out.now)) }
{
    if room <= out.len() - at {
        return Ok(at);
    }
    write_out(to, errors, &out[..at])?;
    Ok(0)
}
