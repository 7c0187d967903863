// Which body of a chart runs.
#![tactic(auto)]

ghost use Rattle.std.specs.Prelude.{Bool, eqb};
ghost use Rattle.sheet.specs.declared.Record.{Record};
ghost use Rattle.sheet_rules.specs.Types.{reacts_to};
ghost use Rattle.machine.specs.Play.{reacts_on};
ghost use Rattle.machine_passed.specs.Places.{StandsAt};
ghost use Rattle.engine_finders.specs.Bodies.{Tests, FirstAt};

use sheet::{BODIES, Record};
use sheet_opened::Reader;

// The first body of chart c that meets a test; how many it has if none does.
pub fn first_body<F: Fn(Record) -> bool>(sheet: &Reader, c: Record, fits: F) -> usize
    requires { F.IsAlwaysCallable fits }
    ensures { (p : Record → Bool) → Tests sheet.now.sheet.now (F.post fits) p → FirstAt sheet.now.sheet.now c p result }
{
    let first = c.f4 as usize;
    let count = c.f5 as usize;
    for j in 0..count {
        let Some(b) = sheet.record(BODIES, first + j) else {
            continue;
        };
        if fits(b) {
            return j;
        }
    }
    count
}

// The initial body (role 0) or the panic body (role 1) of chart c.
pub fn with_role(sheet: &Reader, c: Record, role: u16) -> usize
    ensures { StandsAt sheet.now.sheet.now c (λ b. eqb b.f0 role) result }
{
    first_body(sheet, c, |b| b.f0 == role)
}

// The reaction of chart c to an external name on a port.
pub fn reaction_on(sheet: &Reader, c: Record, port: usize, name: usize) -> usize
    ensures { StandsAt sheet.now.sheet.now c (reacts_on port name) result }
{
    first_body(sheet, c, |b| {
        b.f0 == 2 && b.f1 as usize == port && b.f2 as usize == name
    })
}

// The reaction of chart c to an internal name.
pub fn reaction_to(sheet: &Reader, c: Record, name: usize) -> usize
    ensures { StandsAt sheet.now.sheet.now c (reacts_to name) result }
{
    first_body(sheet, c, |b| b.f0 == 3 && b.f2 as usize == name)
}
