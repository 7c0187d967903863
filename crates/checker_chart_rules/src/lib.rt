// The static rules of a chart and its bodies.
#![tactic(auto)]

ghost use Rattle.std.specs.Prelude.{◌≡◌};
ghost use Rattle.sheet_rules.specs.Static.{body_static, bodies_static, chart_static};
ghost use Rattle.sheet_types.specs.Table.{Table};
ghost use Rattle.checker_reactions.specs.Entries.{Ready};

use checker_reactions::Tables;
use sheet::{BODIES, ByRecord, Range, Record};
use sheet_opened::Reader;

fn body_static(sheet: &Reader, table: &ByRecord, c: Record, b: Record) -> bool
    requires table { Table sheet.now.sheet.now c table.now }
    ensures { result ≡ body_static sheet.now.sheet.now c b }
{
    if !checker_roles::plain_data(sheet, checker_roles::parameters(b)) {
        return false;
    }
    if !checker_roles::plain_data(sheet, checker_roles::locals(b)) {
        return false;
    }
    if !checker_roles::role_static(sheet, b) {
        return false;
    }
    sheet_types::is_statement(checker_typing::type_of(sheet, table, c, b, b.f7 as usize))
}

fn bodies_static(sheet: &Reader, tables: &mut Tables, c: Record) -> bool
    requires { Ready sheet.now.sheet.now tables.old }
    ensures { (result ≡ bodies_static sheet.now.sheet.now c) × Ready sheet.now.sheet.now tables.new }
{
    checker_reactions::fill(sheet, &mut tables.internal, c);
    let first = c.f4 as usize;
    let count = c.f5 as usize;
    for j in 0..count {
        let i = first + j;
        let Some(b) = sheet.record(BODIES, i) else {
            return false;
        };
        if !body_static(sheet, &tables.internal, c, b) {
            return false;
        }
        if !checker_twins::no_twin(sheet, tables, c, j, b) {
            return false;
        }
        checker_twins::link(tables, i, b);
    }
    true
}

pub fn chart_static(sheet: &Reader, tables: &mut Tables, c: Record) -> bool
    requires { Ready sheet.now.sheet.now tables.old }
    ensures { (result ≡ chart_static sheet.now.sheet.now c) × Ready sheet.now.sheet.now tables.new }
{
    let g = Range {
        first: c.f0 as usize,
        count: c.f1 as usize,
    };
    if !checker_roles::plain_data(sheet, g) {
        return false;
    }
    if checker_roles::bodies_with(sheet, c, 0) != 1 {
        return false;
    }
    if checker_roles::bodies_with(sheet, c, 1) != 1 {
        return false;
    }
    bodies_static(sheet, tables, c)
}
