// Plays a sheet. The file that its argument names, or standard input, is the sheet's length as a 32-bit
// little-endian number, the sheet, then events of nine little-endian signed 32-bit words; the listing
// goes to standard output, each event's line before more events are waited for. It stops at the first
// line that can't be written and where the input can't be read, and says so on standard error.
#![tactic(auto)]

use std::io;
use std::rt::Env;

// Linux's number of the error that a name is too long.
const NAME_TOO_LONG: i32 = 36;

// The most bytes of a file's name.
const NAME: usize = 4096;

fn say_use(rt: &HostRuntime) {
    let _ = rt.eprintln(
        "use: play [FILE]\nPlays a sheet with its events, from FILE or standard input, and writes the listing to standard output.",
    );
}

// An argument that is too long leaves its first bytes in `name`, so an option is told by its first.
fn play_argument(rt: &HostRuntime) {
    let mut name = [0u8; NAME];
    let got = rt.arg(1, &mut name);
    if name[0] == b'-' {
        say_use(rt);
        return;
    }
    match got {
        Ok(n) => {
            let _ = program_runs::desk_from(rt, &mut rt.stdout(), rt, &name[..n]);
        }
        Err(_) => {
            let why = io::Error::from_raw_os_error(NAME_TOO_LONG);
            let _ = rt.eprintln(format_args!("the file's name: {why}"));
        }
    }
}

fn main(rt: HostRuntime) {
    if !program_runs::has_argument(&rt, 1) {
        let _ = program_runs::desk(&mut rt.stdin(), &mut rt.stdout(), &rt);
        return;
    }
    if program_runs::has_argument(&rt, 2) {
        say_use(&rt);
        return;
    }
    play_argument(&rt);
}
