// The shape of the head, enumerated types, declarations and telegram names.
#![tactic(auto)]

ghost use Rattle.std.specs.Prelude.{◌≡◌};
ghost use Rattle.sheet_rules.specs.Shape.{head_shape, enumerated_shape, type_exists, declaration_shape, name_shape};

use sheet::{DECLARATIONS, ENUMERATED_TYPES, Record};
use sheet_opened::Reader;

pub fn head_fits(r: Record) -> bool
    ensures { result ≡ head_shape r }
{
    if 64 < r.f0 {
        return false;
    }
    if r.f1 < 2 {
        return false;
    }
    if r.f0 < r.f1 {
        return false;
    }
    if r.f2 < 2 {
        return false;
    }
    if 64 < r.f2 {
        return false;
    }
    sheet_fields::zero_from(r, 4)
}

pub fn enumerated_fits(r: Record) -> bool
    ensures { result ≡ enumerated_shape r }
{
    if r.f0 < 1 {
        return false;
    }
    if 256 < r.f0 {
        return false;
    }
    if r.f0 <= r.f1 {
        return false;
    }
    sheet_fields::zero_from(r, 2)
}

fn type_exists(sheet: &Reader, t: usize) -> bool
    ensures { result ≡ type_exists sheet.now.sheet.now t }
{
    if t <= 6 {
        return true;
    }
    if t < 8 {
        return false;
    }
    t - 8 < sheet.count(ENUMERATED_TYPES)
}

pub fn declaration_fits(sheet: &Reader, r: Record) -> bool
    ensures { result ≡ declaration_shape sheet.now.sheet.now r }
{
    if !type_exists(sheet, r.f0 as usize) {
        return false;
    }
    if !sheet_indices::index_exists(sheet, r.f1) {
        return false;
    }
    sheet_fields::zero_from(r, 2)
}

pub fn name_fits(sheet: &Reader, r: Record) -> bool
    ensures { result ≡ name_shape sheet.now.sheet.now r }
{
    if !sheet_fields::in_section(sheet, DECLARATIONS, r.f0, r.f1) {
        return false;
    }
    if 4 < r.f1 {
        return false;
    }
    if 1 < r.f2 {
        return false;
    }
    sheet_fields::zero_from(r, 3)
}
