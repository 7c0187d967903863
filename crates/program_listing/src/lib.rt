// Answers as text in a buffer, for the programs that print them.
#![tactic(auto)]

ghost use Rattle.std.specs.Prelude.{◌+◌, ◌≤◌, length};
ghost use Rattle.program_text.specs.Decimal.{Put};
ghost use Rattle.program_listing.specs.Listing.{counts_text, after_text, telegram_text, handed_text, start_line, event_line, longest_line};

use machine::{Answer, Telegram};

// The most bytes that an event's line takes.
pub const LONGEST_LINE: usize = 220;

pub fn put_counts(out: &mut [u8], at: usize, number: u8, steps: u32) -> usize
    requires { at + 41 ≤ length out.old }
    ensures { Put out.old at (counts_text number steps) out.new result × (result ≤ at + 41) }
{
    let a = program_text::put_decimal(out, at, number as u64);
    let b = program_text::put(out, a, b' ');
    program_text::put_decimal(out, b, steps as u64)
}

fn put_after(out: &mut [u8], at: usize, sep: u8, z: i32) -> usize
    requires { at + 22 ≤ length out.old }
    ensures { Put out.old at (after_text sep z) out.new result × (result ≤ at + 22) }
{
    let a = program_text::put(out, at, sep);
    program_text::put_signed(out, a, z)
}

// What is handed outside, with a separator between the numbers.
pub fn put_telegram(out: &mut [u8], at: usize, sep: u8, t: Telegram) -> usize
    requires { at + 153 ≤ length out.old }
    ensures { Put out.old at (telegram_text sep t) out.new result × (result ≤ at + 153) }
{
    let a = program_text::put_signed(out, at, t.receiver);
    let b = put_after(out, a, sep, t.port);
    let c = put_after(out, b, sep, t.name);
    let d = put_after(out, c, sep, t.d0);
    let e = put_after(out, d, sep, t.d1);
    let f = put_after(out, e, sep, t.d2);
    put_after(out, f, sep, t.d3)
}

fn put_handed(out: &mut [u8], at: usize, h: Option<Telegram>) -> usize
    requires { at + 157 ≤ length out.old }
    ensures { Put out.old at (handed_text h) out.new result × (result ≤ at + 157) }
{
    match h {
        None => at,
        Some(t) => {
            let a = program_text::put_bytes(out, at, b" to ");
            put_telegram(out, a, b' ', t)
        }
    }
}

pub fn put_start(out: &mut [u8], at: usize, number: u8, steps: u32) -> usize
    requires { at + 48 ≤ length out.old }
    ensures { Put out.old at (start_line number steps) out.new result × (result ≤ at + 48) }
{
    let a = program_text::put_bytes(out, at, b"start ");
    let b = put_counts(out, a, number, steps);
    program_text::put(out, b, b'\n')
}

// An event's line, from its kind and its answer; no kind has a form of its own.
pub fn put_event(out: &mut [u8], at: usize, k: u64, kind: i32, a: Answer) -> usize
    requires { at + longest_line ≤ length out.old }
    ensures { Put out.old at (event_line k kind a) out.new result × (result ≤ at + longest_line) }
{
    let b = program_text::put_decimal(out, at, k);
    let c = program_text::put(out, b, b' ');
    let d = put_counts(out, c, a.number, a.steps);
    let h = a.handed;
    let e = put_handed(out, d, h);
    program_text::put(out, e, b'\n')
}
