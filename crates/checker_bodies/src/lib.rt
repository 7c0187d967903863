// The shape of bodies.
#![tactic(auto)]

ghost use Rattle.std.specs.Prelude.{◌≡◌};
ghost use Rattle.sheet_rules.specs.Shape.{reaction_shape, body_shape};

use sheet::{DECLARATIONS, HEAD, NAMES, NODES, Record};
use sheet_opened::Reader;

// The port and the name of a reaction are there, and 0 in another body.
fn reaction_fits(sheet: &Reader, r: Record) -> bool
    ensures { result ≡ reaction_shape sheet.now.sheet.now r }
{
    let role = r.f0;
    match role {
        2 => {
            let ports = sheet_fields::field_at(sheet, HEAD, 0, 2);
            if ports <= r.f1 as usize {
                return false;
            }
            (r.f2 as usize) < sheet.count(NAMES)
        }
        3 => {
            if r.f1 != 0 {
                return false;
            }
            (r.f2 as usize) < sheet.count(NAMES)
        }
        _ => {
            if r.f1 != 0 {
                return false;
            }
            r.f2 == 0
        }
    }
}

pub fn body_fits(sheet: &Reader, r: Record) -> bool
    ensures { result ≡ body_shape sheet.now.sheet.now r }
{
    if 4 < r.f0 {
        return false;
    }
    if !reaction_fits(sheet, r) {
        return false;
    }
    if !sheet_fields::in_section(sheet, DECLARATIONS, r.f3, r.f4) {
        return false;
    }
    if 4 < r.f4 {
        return false;
    }
    if !sheet_fields::in_section(sheet, DECLARATIONS, r.f5, r.f6) {
        return false;
    }
    if 16 < r.f4 as usize + r.f6 as usize {
        return false;
    }
    (r.f7 as usize) < sheet.count(NODES)
}
