// Which sheets pass.
#![tactic(auto)]

ghost use Rattle.std.specs.Prelude.{◌≡◌, ◌≤◌, length};
ghost use Rattle.sheet.specs.Names.{nodes};
ghost use Rattle.sheet.specs.Sheet.{count_of};
ghost use Rattle.sheet_rules.specs.Check.{shape, check_of, check_number, check_call};

use sheet::{HEAD, NODES, RECORDS};
use sheet_opened::Reader;
use sheet_rules::Checked;

// Whether the sheet has the shape. A mark is lent for each node.
fn shape_holds(sheet: &Reader, marks: &mut [u16]) -> bool
    requires nodes_in_bounds { count_of sheet.now.sheet.now nodes ≤ length marks.old }
    ensures { result ≡ shape sheet.now.sheet.now }
{
    if sheet.count(HEAD) != 1 {
        return false;
    }
    if !checker_shape::sections_fit(sheet) {
        return false;
    }
    if !checker_charts::bodies_covered(sheet) {
        return false;
    }
    let components = sheet_fields::field_at(sheet, HEAD, 0, 0);
    let externals = sheet_fields::field_at(sheet, HEAD, 0, 1);
    if externals + sheet_bindings::elements_bound(sheet) != components {
        return false;
    }
    if 512 < sheet_elements::cells(sheet) {
        return false;
    }
    let tested = checker_uses::used_once(sheet, marks);
    if !tested.once {
        return false;
    }
    checker_trees::nodes_fit(sheet)
}

// The same with marks of its own. An array is cleared when it is made, so a sheet of few nodes gets a short one.
fn shaped(sheet: &Reader) -> bool
    ensures { result ≡ shape sheet.now.sheet.now }
{
    let count = sheet.count(NODES);
    if count <= 512 {
        let mut few = [0u16; 512];
        return shape_holds(sheet, &mut few[..count]);
    }
    let mut marks = [0u16; RECORDS];
    shape_holds(sheet, &mut marks[..count])
}

// What check answers, and with it the paper's number, for a caller who has opened the directory.
pub fn check_opened(sheet: &Reader) -> Checked
    ensures { (result ≡ check_of sheet.now.sheet.now) × (check_number result ≡ check_call sheet.now.sheet.now) }
{
    if !shaped(sheet) {
        return Checked::Shape;
    }
    if !checker_statics::rules_hold(sheet) {
        return Checked::Static;
    }
    Checked::Passed
}

// What check answers for any bytes.
pub fn check(sheet: &[u8]) -> Checked
    ensures { (result ≡ check_of sheet.now) × (check_number result ≡ check_call sheet.now) }
{
    let opened = Reader::new(sheet);
    check_opened(&opened)
}
