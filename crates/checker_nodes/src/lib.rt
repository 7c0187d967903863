// The fields of a node, form by form: what they number exists, and fields not named are 0.
#![tactic(auto)]

ghost use Rattle.std.specs.Prelude.{◌≡◌, ◌+◌, ltb, eqb};
ghost use Rattle.sheet.specs.All.{◌and◌};
ghost use Rattle.sheet.specs.Names.{chart_variables, chart_bodies};
ghost use Rattle.sheet_rules.specs.Fields.{zero_from};
ghost use Rattle.sheet_rules.specs.Forms.{call_data};
ghost use Rattle.sheet_rules.specs.Shape.{variables_at, send_shape};

use sheet::{NAMES, Record};
use sheet_opened::Reader;

fn variables_at(c: Record, b: Record, place: u16) -> usize
    ensures { result ≡ variables_at c b place }
{
    match place {
        0 => c.f1 as usize,
        1 => c.f3 as usize,
        2 => b.f4 as usize + b.f6 as usize,
        _ => 0,
    }
}

// A variable that is read or assigned, where the fields from `from` on are not named.
pub fn variable_fits(c: Record, b: Record, r: Record, from: usize) -> bool
    ensures { result ≡ ltb r.f2 (variables_at c b r.f1) and zero_from from r }
{
    if variables_at(c, b, r.f1) <= r.f2 as usize {
        return false;
    }
    sheet_fields::zero_from(r, from)
}

// Whether the clock or the array that a node names is one of the chart's variables.
fn chart_variable_there(c: Record, r: Record) -> bool
    ensures { result ≡ ltb r.f1 (chart_variables c).count }
{
    r.f1 < c.f3
}

// A clock that is read, started or stopped, or an array of which an element is read or assigned, where the
// fields from `from` on are not named.
pub fn chart_variable_fits(c: Record, r: Record, from: usize) -> bool
    ensures { result ≡ ltb r.f1 (chart_variables c).count and zero_from from r }
{
    if !chart_variable_there(c, r) {
        return false;
    }
    sheet_fields::zero_from(r, from)
}

// A data field more than the name has is 0.
pub fn send_fits(sheet: &Reader, r: Record) -> bool
    ensures { result ≡ send_shape sheet.now.sheet.now r }
{
    let Some(n) = sheet.record(NAMES, r.f3 as usize) else {
        return false;
    };
    sheet_fields::zero_from(r, 4 + n.f1 as usize)
}

// An internal send has neither component nor port.
pub fn internal_fits(sheet: &Reader, r: Record) -> bool
    ensures { result ≡ eqb r.f1 0 and eqb r.f2 0 and send_shape sheet.now.sheet.now r }
{
    if r.f1 != 0 {
        return false;
    }
    if r.f2 != 0 {
        return false;
    }
    send_fits(sheet, r)
}

pub fn arm_fits(sheet: &Reader, c: Record, r: Record) -> bool
    ensures { result ≡ ltb r.f1 (chart_variables c).count and send_shape sheet.now.sheet.now r }
{
    if !chart_variable_there(c, r) {
        return false;
    }
    send_fits(sheet, r)
}

// A data field more than the called body has parameters is 0.
pub fn call_fits(sheet: &Reader, c: Record, r: Record) -> bool
    ensures { result ≡ ltb r.f1 (chart_bodies c).count and eqb r.f2 0 and eqb r.f3 0 and zero_from (4 + call_data sheet.now.sheet.now c r) r }
{
    if c.f5 <= r.f1 {
        return false;
    }
    if r.f2 != 0 {
        return false;
    }
    if r.f3 != 0 {
        return false;
    }
    sheet_fields::zero_from(r, 4 + sheet_fields::call_data(sheet, c, r))
}
