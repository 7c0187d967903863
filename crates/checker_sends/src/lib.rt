// Sends, armings and calls as statements, by what their operands are and whether their data match.
#![tactic(auto)]

ghost use Rattle.std.specs.Prelude.{◌≡◌, ◌<◌, length, get_or};
ghost use Rattle.sheet_rules.specs.Types.{internal_name, clock_of, external_type, internal_type, arm_type, call_type};
ghost use Rattle.sheet_types.specs.Table.{tabled, Table};

use sheet::{ByRecord, Record};
use sheet_opened::Reader;
use sheet_rules::Typed;

// Whether a table's entry is a body of chart c.
fn in_chart(c: Record, e: u16) -> bool
    ensures { result ≡ tabled c e }
{
    if e <= c.f4 {
        return false;
    }
    e as usize <= c.f4 as usize + c.f5 as usize
}

// Whether chart c has an internal reaction to name n, by the table.
fn has_reaction(table: &ByRecord, c: Record, n: u16) -> bool
    requires table_len { length table.now ≡ 4096 }
    requires n_bound { n < 4096 }
    ensures { result ≡ tabled c (get_or table.now n 0) }
{
    in_chart(c, table[n as usize])
}

fn internal_name(sheet: &Reader, table: &ByRecord, c: Record, n: u16) -> bool
    requires table { Table sheet.now.sheet.now c table.now }
    ensures { result ≡ internal_name sheet.now.sheet.now c n }
{
    if !sheet_types::has_class(sheet, n as usize, 1) {
        return false;
    }
    has_reaction(table, c, n)
}

pub fn external_type(sheet: &Reader, r: Record, x: Typed, y: Typed, d: bool) -> Typed
    ensures { result ≡ external_type sheet.now.sheet.now r x y d }
{
    if !sheet_types::is_of(x, 2) {
        return Typed::Wrong;
    }
    if !sheet_types::is_of(y, 3) {
        return Typed::Wrong;
    }
    if !sheet_types::has_class(sheet, r.f3 as usize, 0) {
        return Typed::Wrong;
    }
    if !d {
        return Typed::Wrong;
    }
    Typed::Statement
}

pub fn internal_type(sheet: &Reader, table: &ByRecord, c: Record, r: Record, d: bool) -> Typed
    requires table { Table sheet.now.sheet.now c table.now }
    ensures { result ≡ internal_type sheet.now.sheet.now c r d }
{
    if !internal_name(sheet, table, c, r.f3) {
        return Typed::Wrong;
    }
    if !d {
        return Typed::Wrong;
    }
    Typed::Statement
}

fn clock_of(op: u16) -> usize
    ensures { result ≡ clock_of op }
{
    match op {
        36 => 5,
        37 => 6,
        _ => 4,
    }
}

pub fn arm_type(sheet: &Reader, table: &ByRecord, c: Record, r: Record, x: Typed, d: bool) -> Typed
    requires table { Table sheet.now.sheet.now c table.now }
    ensures { result ≡ arm_type sheet.now.sheet.now c r x d }
{
    if sheet_types::chart_variable_type(sheet, c, r.f1) != clock_of(r.f0) {
        return Typed::Wrong;
    }
    if !sheet_types::is_of(x, 1) {
        return Typed::Wrong;
    }
    internal_type(sheet, table, c, r, d)
}

pub fn call_type(sheet: &Reader, c: Record, r: Record, d: bool) -> Typed
    ensures { result ≡ call_type sheet.now.sheet.now c r d }
{
    let Some(p) = sheet_types::called_body(sheet, c, r) else {
        return Typed::Wrong;
    };
    if p.f0 != 4 {
        return Typed::Wrong;
    }
    if !d {
        return Typed::Wrong;
    }
    Typed::Statement
}
