// The constants of bindings have their parameters' types.
#![tactic(auto)]

ghost use Rattle.std.specs.Prelude.{◌≡◌, ◌≤◌};
ghost use Rattle.sheet_rules.specs.Static.{constant_static, constants_static, binding_static, bindings_static};

use sheet::{NODES, Record};
use sheet_opened::Reader;

fn constant_static(sheet: &Reader, n: usize, t: usize) -> bool
    ensures { result ≡ constant_static sheet.now.sheet.now n t }
{
    let Some(r) = sheet.record(NODES, n) else {
        return false;
    };
    sheet_types::literal_type(r) == t
}

// The constants of the element bound to chart c whose first record is k.
fn constants_static(sheet: &Reader, k: usize, c: Record) -> bool
    requires { k ≤ 131072 }
    ensures { result ≡ constants_static sheet.now.sheet.now k c }
{
    sheet_bindings::every_constant(sheet, k, c.f1, |j, n| {
        let t = sheet_types::type_at(sheet, c.f0 as usize + j);
        constant_static(sheet, n, t)
    })
}

// The records of the element whose first one is k.
fn binding_static(sheet: &Reader, k: usize) -> bool
    requires { k ≤ 131072 }
    ensures { result ≡ binding_static sheet.now.sheet.now k }
{
    let Some(c) = sheet_bindings::chart_bound(sheet, k) else {
        return false;
    };
    constants_static(sheet, k, c)
}

// The whole section, element by element.
pub fn bindings_static(sheet: &Reader) -> bool
    ensures { result ≡ bindings_static sheet.now.sheet.now }
{
    sheet_bindings::every_element(sheet, |k| binding_static(sheet, k))
}
