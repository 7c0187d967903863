// Marks of nodes: what a binding adds to the marks of its constants.
#![tactic(auto)]

ghost use Rattle.std.specs.Prelude.{◌≡◌, ◌+◌, ◌<◌, ◌≤◌, length};
ghost use Rattle.sheet.specs.Names.{bindings};
ghost use Rattle.sheet.specs.Sheet.{count_of, record_of};
ghost use Rattle.sheet_rules.specs.Fields.{number_or0};
ghost use Rattle.sheet_rules.specs.Uses.{constant_uses};
ghost use Rattle.checker_pass.specs.Marks.{Marked, constants_named, gone_to};

use sheet::{BINDINGS, CHARTS, Record};
use sheet_opened::Reader;

// The first n fields of a binding record from f1 on name constants, which have no operands and so need
// no home.
fn mark_constants(marks: &mut [u16], count: usize, b: Record, n: usize)
    requires count_in_bounds { count ≤ length marks.old }
    requires n_bound { n < 65536 }
    ensures { Marked count 0 marks.old marks.new (constants_named b n) }
{
    for j in 0..n {
        checker_marks::mark(marks, count, sheet_fields::field(b, 1 + j), 0);
    }
}

// A second record names n constants. How many records were gone over: one, if it is there.
fn mark_second(sheet: &Reader, marks: &mut [u16], count: usize, k: usize, n: usize) -> usize
    requires count_in_bounds { count ≤ length marks.old }
    requires n_bound { n < 65536 }
    ensures { (result ≡ number_or0 (record_of sheet.now.sheet.now bindings k) (λ b. 1)) × (result ≤ 1) × Marked count 0 marks.old marks.new (λ m. number_or0 (record_of sheet.now.sheet.now bindings k) (λ b. constants_named b n m)) }
{
    let Some(b) = sheet.record(BINDINGS, k) else {
        return 0;
    };
    mark_constants(marks, count, b, n);
    1
}

// The element whose first binding record is k names its constants. How many records were gone over.
pub fn mark_binding(sheet: &Reader, marks: &mut [u16], count: usize, k: usize) -> usize
    requires count_in_bounds { count ≤ length marks.old }
    requires k_bound { k < count_of sheet.now.sheet.now bindings }
    ensures { (k + result ≡ gone_to sheet.now.sheet.now k) × (result ≤ 2) × Marked count 0 marks.old marks.new (λ n. constant_uses sheet.now.sheet.now n k) }
{
    let Some(b) = sheet.record(BINDINGS, k) else {
        prove!(false);
        return 0;
    };
    let total = sheet_fields::field_at(sheet, CHARTS, b.f0 as usize, 1);
    if total <= 7 {
        mark_constants(marks, count, b, total);
        return 1;
    }
    mark_constants(marks, count, b, 7);
    let more = mark_second(sheet, marks, count, k + 1, total - 7);
    1 + more
}
