// What a node that names a variable is, armings and elements of arrays aside: an expression of a type, a
// statement, or wrong.
#![tactic(auto)]

ghost use Rattle.std.specs.Prelude.{◌≡◌};
ghost use Rattle.sheet_rules.specs.Types.{read_type, clock_type, assign_type, clock_act_type};

use sheet::Record;
use sheet_opened::Reader;
use sheet_rules::Typed;

// "operators 7 and 33 don't take an array"
pub fn read_type(sheet: &Reader, c: Record, b: Record, r: Record) -> Typed
    ensures { result ≡ read_type sheet.now.sheet.now c b r }
{
    let d = sheet_types::variable_at(c, b, r.f1, r.f2);
    let t = sheet_types::type_at(sheet, d);
    if sheet_types::is_clock(t) {
        return Typed::Wrong;
    }
    if !sheet_indices::is_plain(sheet, d) {
        return Typed::Wrong;
    }
    Typed::Expression(t)
}

pub fn clock_type(sheet: &Reader, c: Record, r: Record) -> Typed
    ensures { result ≡ clock_type sheet.now.sheet.now c r }
{
    if !sheet_types::is_clock(sheet_types::chart_variable_type(sheet, c, r.f1)) {
        return Typed::Wrong;
    }
    if r.f0 == 17 {
        return Typed::Expression(0);
    }
    Typed::Expression(1)
}

pub fn assign_type(sheet: &Reader, c: Record, b: Record, r: Record, x: Typed) -> Typed
    ensures { result ≡ assign_type sheet.now.sheet.now c b r x }
{
    if r.f1 == 0 {
        return Typed::Wrong;
    }
    let target = sheet_types::variable_at(c, b, r.f1, r.f2);
    if !sheet_indices::is_plain(sheet, target) {
        return Typed::Wrong;
    }
    if !sheet_types::is_of(x, sheet_types::type_at(sheet, target)) {
        return Typed::Wrong;
    }
    Typed::Statement
}

pub fn clock_act_type(sheet: &Reader, c: Record, r: Record) -> Typed
    ensures { result ≡ clock_act_type sheet.now.sheet.now c r }
{
    let t = sheet_types::chart_variable_type(sheet, c, r.f1);
    if r.f0 == 38 {
        if t != 4 {
            return Typed::Wrong;
        }
        return Typed::Statement;
    }
    if !sheet_types::is_clock(t) {
        return Typed::Wrong;
    }
    Typed::Statement
}
