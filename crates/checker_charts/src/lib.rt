// The shape of charts.
#![tactic(auto)]

ghost use Rattle.std.specs.Prelude.{◌≡◌};
ghost use Rattle.sheet_rules.specs.Shape.{bodies_up_to, chart_shape, bodies_covered};

use sheet::{BODIES, CHARTS, DECLARATIONS, Record};
use sheet_opened::Reader;

// Where the bodies of the charts before chart k end.
fn bodies_up_to(sheet: &Reader, k: usize) -> usize
    ensures { result ≡ bodies_up_to sheet.now.sheet.now k }
{
    if k == 0 {
        return 0;
    }
    let Some(c) = sheet.record(CHARTS, k - 1) else {
        return 0;
    };
    c.f4 as usize + c.f5 as usize
}

pub fn chart_fits(sheet: &Reader, k: usize, r: Record) -> bool
    ensures { result ≡ chart_shape sheet.now.sheet.now k r }
{
    if !sheet_fields::in_section(sheet, DECLARATIONS, r.f0, r.f1) {
        return false;
    }
    if 14 < r.f1 {
        return false;
    }
    if !sheet_fields::in_section(sheet, DECLARATIONS, r.f2, r.f3) {
        return false;
    }
    if 32 < r.f3 {
        return false;
    }
    if r.f4 as usize != bodies_up_to(sheet, k) {
        return false;
    }
    sheet_fields::zero_from(r, 6)
}

pub fn bodies_covered(sheet: &Reader) -> bool
    ensures { result ≡ bodies_covered sheet.now.sheet.now }
{
    bodies_up_to(sheet, sheet.count(CHARTS)) == sheet.count(BODIES)
}
