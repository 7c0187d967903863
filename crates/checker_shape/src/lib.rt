// The shape of a sheet, record by record.
#![tactic(auto)]

ghost use Rattle.std.specs.Prelude.{◌≡◌};
ghost use Rattle.sheet_rules.specs.Shape.{record_shape, each_shape, section_shape};
ghost use Rattle.sheet_rules.specs.Check.{sections_shape};

use sheet::Record;
use sheet_opened::Reader;

fn record_fits(sheet: &Reader, k: usize, i: usize, r: Record) -> bool
    ensures { result ≡ record_shape sheet.now.sheet.now k i r }
{
    match k {
        0 => checker_declarations::head_fits(r),
        1 => checker_declarations::enumerated_fits(r),
        2 => checker_declarations::declaration_fits(sheet, r),
        3 => checker_declarations::name_fits(sheet, r),
        4 => checker_charts::chart_fits(sheet, i, r),
        5 => checker_bodies::body_fits(sheet, r),
        _ => true,
    }
}

fn records_fit(sheet: &Reader, k: usize) -> bool
    ensures { result ≡ each_shape sheet.now.sheet.now k }
{
    let count = sheet.count(k);
    for i in 0..count {
        let Some(r) = sheet.record(k, i) else {
            return false;
        };
        if !record_fits(sheet, k, i, r) {
            return false;
        }
    }
    true
}

// Nodes are judged in the tree that they stand in, bindings element by element.
fn section_fits(sheet: &Reader, k: usize) -> bool
    ensures { result ≡ section_shape sheet.now.sheet.now k }
{
    if k == 6 {
        return true;
    }
    if k == 7 {
        return checker_bindings::bindings_fit(sheet);
    }
    records_fit(sheet, k)
}

pub fn sections_fit(sheet: &Reader) -> bool
    ensures { result ≡ sections_shape sheet.now.sheet.now }
{
    for k in 0..8 {
        if !section_fits(sheet, k) {
            return false;
        }
    }
    true
}
