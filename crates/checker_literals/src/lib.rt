// The shape of literals, and of a constant of a binding, which is one.
#![tactic(auto)]

ghost use Rattle.std.specs.Prelude.{◌≡◌};
ghost use Rattle.sheet_rules.specs.Shape.{literal_shape, constant_shape};

use sheet::{ENUMERATED_TYPES, HEAD, NODES, Record};
use sheet_opened::Reader;

pub fn literal_fits(sheet: &Reader, r: Record) -> bool
    ensures { result ≡ literal_shape sheet.now.sheet.now r }
{
    let op = r.f0;
    match op {
        1 => {
            if 1 < r.f1 {
                return false;
            }
            sheet_fields::zero_from(r, 2)
        }
        2 => sheet_fields::zero_from(r, 3),
        3 => {
            if sheet_fields::field_at(sheet, ENUMERATED_TYPES, r.f1 as usize, 0) <= r.f2 as usize {
                return false;
            }
            sheet_fields::zero_from(r, 3)
        }
        4 => {
            if sheet_fields::field_at(sheet, HEAD, 0, 0) <= r.f1 as usize {
                return false;
            }
            sheet_fields::zero_from(r, 2)
        }
        5 => {
            if sheet_fields::field_at(sheet, HEAD, 0, 2) <= r.f1 as usize {
                return false;
            }
            sheet_fields::zero_from(r, 2)
        }
        _ => sheet_fields::zero_from(r, 1),
    }
}

pub fn constant_fits(sheet: &Reader, n: usize) -> bool
    ensures { result ≡ constant_shape sheet.now.sheet.now n }
{
    let Some(r) = sheet.record(NODES, n) else {
        return false;
    };
    if r.f0 < 1 {
        return false;
    }
    if 6 < r.f0 {
        return false;
    }
    literal_fits(sheet, r)
}
