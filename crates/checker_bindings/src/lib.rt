// The shape of bindings.
#![tactic(auto)]

ghost use Rattle.std.specs.Prelude.{◌≡◌, ◌≤◌, ◌<◌};
ghost use Rattle.sheet_rules.specs.Shape.{constants_shape, second_shape, records_shape, binding_shape, bindings_shape};

use sheet::{BINDINGS, CHARTS, Record};
use sheet_opened::Reader;

// The constants of the element bound to chart c whose first record is k.
fn constants_fit(sheet: &Reader, k: usize, c: Record) -> bool
    requires { k ≤ 131072 }
    ensures { result ≡ constants_shape sheet.now.sheet.now k c }
{
    sheet_bindings::every_constant(
        sheet,
        k,
        c.f1,
        |_, n| checker_literals::constant_fits(sheet, n),
    )
}

// Whether record k is a second one, with n constants.
fn second_fits(sheet: &Reader, k: usize, n: usize) -> bool
    requires { n < 65536 }
    ensures { result ≡ second_shape sheet.now.sheet.now k n }
{
    let Some(r) = sheet.record(BINDINGS, k) else {
        return false;
    };
    if r.f0 != 65535 {
        return false;
    }
    sheet_fields::zero_from(r, 1 + n)
}

// The records from k on, the first one being r, of an element bound to chart c.
fn records_fit(sheet: &Reader, k: usize, r: Record, c: Record) -> bool
    requires { k ≤ 131072 }
    ensures { result ≡ records_shape sheet.now.sheet.now k r c }
{
    if !constants_fit(sheet, k, c) {
        return false;
    }
    let count = c.f1 as usize;
    if !sheet_fields::zero_from(r, 1 + count) {
        return false;
    }
    if count <= 7 {
        return true;
    }
    second_fits(sheet, k + 1, count - 7)
}

// The records of the element whose first one is k.
fn binding_fits(sheet: &Reader, k: usize) -> bool
    requires { k ≤ 131072 }
    ensures { result ≡ binding_shape sheet.now.sheet.now k }
{
    let Some(r) = sheet.record(BINDINGS, k) else {
        return false;
    };
    let Some(c) = sheet.record(CHARTS, r.f0 as usize) else {
        return false;
    };
    records_fit(sheet, k, r, c)
}

// The whole section, element by element.
pub fn bindings_fit(sheet: &Reader) -> bool
    ensures { result ≡ bindings_shape sheet.now.sheet.now }
{
    sheet_bindings::every_element(sheet, |k| binding_fits(sheet, k))
}
