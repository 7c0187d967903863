// The type of an expression, and what is a statement.
#![tactic(auto)]

ghost use Rattle.std.specs.Prelude.{◌≡◌, ◌<◌};
ghost use Rattle.sheet_rules.specs.Types.{data_match, lower_type, type_of};
ghost use Rattle.sheet_types.specs.Table.{Table};

use sheet::{ByRecord, NODES, Range, Record};
use sheet_opened::Reader;
use sheet_rules::Typed;

// What operand m of node n is: operands are lower.
#[cycle(data_match_operand_type_type_of)]
fn operand_type(sheet: &Reader, table: &ByRecord, c: Record, b: Record, n: usize, m: u16) -> Typed
    requires table { Table sheet.now.sheet.now c table.now }
    ensures { result ≡ lower_type n (type_of sheet.now.sheet.now c b) m }
{
    if (m as usize) < n {
        type_of(sheet, table, c, b, m as usize)
    } else {
        Typed::Wrong
    }
}

// Whether the data of node n match the types of a range.
#[cycle(data_match_operand_type_type_of)]
fn data_match(
    sheet: &Reader,
    table: &ByRecord,
    c: Record,
    b: Record,
    n: usize,
    g: Range,
    r: Record,
) -> bool
    requires table { Table sheet.now.sheet.now c table.now }
    requires first_bound { (g.first < 65536) × (g.count < 65536) }
    ensures { result ≡ data_match sheet.now.sheet.now (lower_type n (type_of sheet.now.sheet.now c b)) g r }
{
    let first = g.first;
    let count = g.count;
    for j in 0..count {
        let m = sheet_fields::field(r, 4 + j);
        let x = operand_type(sheet, table, c, b, n, m as u16);
        if !sheet_types::is_of(x, sheet_types::type_at(sheet, first + j)) {
            return false;
        }
    }
    true
}

// What node n is in body b of chart c.
#[cycle(data_match_operand_type_type_of)]
pub fn type_of(sheet: &Reader, table: &ByRecord, c: Record, b: Record, n: usize) -> Typed
    requires table { Table sheet.now.sheet.now c table.now }
    ensures { result ≡ type_of sheet.now.sheet.now c b n }
{
    let Some(r) = sheet.record(NODES, n) else {
        return Typed::Wrong;
    };
    let op = r.f0;
    match op {
        1..=6 => Typed::Expression(sheet_types::literal_type(r)),
        7 => checker_variables::read_type(sheet, c, b, r),
        8 => checker_forms::not_type(operand_type(sheet, table, c, b, n, r.f1)),
        9..=16 => {
            let x = operand_type(sheet, table, c, b, n, r.f1);
            let y = operand_type(sheet, table, c, b, n, r.f2);
            checker_forms::binary_type(op, x, y)
        }
        17..=18 => checker_variables::clock_type(sheet, c, r),
        19 => {
            let x = operand_type(sheet, table, c, b, n, r.f2);
            checker_arrays::read_element_type(sheet, c, r, x)
        }
        32 => Typed::Statement,
        33 => {
            let x = operand_type(sheet, table, c, b, n, r.f3);
            checker_variables::assign_type(sheet, c, b, r, x)
        }
        34 => {
            let x = operand_type(sheet, table, c, b, n, r.f1);
            let y = operand_type(sheet, table, c, b, n, r.f2);
            let g = sheet_types::name_range(sheet, r.f3 as usize);
            let d = data_match(sheet, table, c, b, n, g, r);
            checker_sends::external_type(sheet, r, x, y, d)
        }
        35 => {
            let g = sheet_types::name_range(sheet, r.f3 as usize);
            let d = data_match(sheet, table, c, b, n, g, r);
            checker_sends::internal_type(sheet, table, c, r, d)
        }
        36..=37 => {
            let x = operand_type(sheet, table, c, b, n, r.f2);
            let g = sheet_types::name_range(sheet, r.f3 as usize);
            let d = data_match(sheet, table, c, b, n, g, r);
            checker_sends::arm_type(sheet, table, c, r, x, d)
        }
        38..=39 => checker_variables::clock_act_type(sheet, c, r),
        40 => {
            let g = sheet_types::called_range(sheet, c, r);
            let d = data_match(sheet, table, c, b, n, g, r);
            checker_sends::call_type(sheet, c, r, d)
        }
        41 => {
            let x = operand_type(sheet, table, c, b, n, r.f1);
            let y = operand_type(sheet, table, c, b, n, r.f2);
            let z = operand_type(sheet, table, c, b, n, r.f3);
            checker_forms::choice_type(x, y, z)
        }
        42 => {
            let x = operand_type(sheet, table, c, b, n, r.f1);
            let y = operand_type(sheet, table, c, b, n, r.f2);
            checker_forms::loop_type(x, y)
        }
        43 => {
            let x = operand_type(sheet, table, c, b, n, r.f1);
            let y = operand_type(sheet, table, c, b, n, r.f2);
            checker_forms::sequence_type(x, y)
        }
        44 => {
            let x = operand_type(sheet, table, c, b, n, r.f2);
            let y = operand_type(sheet, table, c, b, n, r.f3);
            checker_arrays::assign_element_type(sheet, c, r, x, y)
        }
        _ => Typed::Wrong,
    }
}
