// What a node that reads or assigns an element of an array is: an expression of a type, a statement, or wrong.
#![tactic(auto)]

ghost use Rattle.std.specs.Prelude.{◌≡◌};
ghost use Rattle.sheet_rules.specs.Types.{chart_variable_index, indexed_by, read_element_type, assign_element_type};

use sheet::{DECLARATIONS, Record};
use sheet_opened::Reader;
use sheet_rules::Typed;

// "19 and 44 take nothing else, with an index of the array's index type (Int for a number)"
fn indexed_by(sheet: &Reader, c: Record, n: u16, x: Typed) -> bool
    ensures { result ≡ indexed_by (chart_variable_index sheet.now.sheet.now c n) x }
{
    let Some(r) = sheet.record(DECLARATIONS, c.f2 as usize + n as usize) else {
        return false;
    };
    let i = r.f1;
    match i {
        1 => sheet_types::is_of(x, 0),
        2 => sheet_types::is_of(x, 2),
        3 => sheet_types::is_of(x, 3),
        8..=60000 => sheet_types::is_of(x, i as usize),
        60001..=60064 => sheet_types::is_of(x, 1),
        _ => false,
    }
}

pub fn read_element_type(sheet: &Reader, c: Record, r: Record, x: Typed) -> Typed
    ensures { result ≡ read_element_type sheet.now.sheet.now c r x }
{
    if !indexed_by(sheet, c, r.f1, x) {
        return Typed::Wrong;
    }
    Typed::Expression(sheet_types::chart_variable_type(sheet, c, r.f1))
}

// The value that is assigned is of the type of the array's elements.
pub fn assign_element_type(sheet: &Reader, c: Record, r: Record, x: Typed, y: Typed) -> Typed
    ensures { result ≡ assign_element_type sheet.now.sheet.now c r x y }
{
    if !indexed_by(sheet, c, r.f1, x) {
        return Typed::Wrong;
    }
    if !sheet_types::is_of(y, sheet_types::chart_variable_type(sheet, c, r.f1)) {
        return Typed::Wrong;
    }
    Typed::Statement
}
