// Plays inputs that end early and inputs that aren't there to be read, each from a file as `play` plays
// it, and writes each file's name before its listing.
#![tactic(auto)]

use program_runs::Unplayed;

fn play_file(rt: &HostRuntime, name: &str) -> Result<(), Unplayed> {
    let mut to = rt.stdout();
    program_text::write_out(&mut to, rt, name.as_bytes())?;
    program_text::write_out(&mut to, rt, b"\n")?;
    program_runs::desk_from(rt, &mut to, rt, name.as_bytes())
}

// The last two are no such file, and a folder, which can be opened and not read.
const NAMES: [&str; 7] = [
    "length_cut",
    "sheet_cut",
    "sheet_ends_early",
    "event_cut",
    "start_refused",
    "missing",
    ".",
];

fn main(rt: HostRuntime) {
    for name in NAMES {
        let _ = play_file(&rt, name);
    }
}
