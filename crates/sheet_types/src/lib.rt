// The types of declarations, variables and literals; classes and data of names; the body that a call names.
#![tactic(auto)]

ghost use Rattle.std.specs.Prelude.{◌≡◌, ◌+◌, ◌<◌};
ghost use Rattle.sheet.specs.Names.{is_clock};
ghost use Rattle.sheet_rules.specs.Fields.{type_at};
ghost use Rattle.sheet_rules.specs.Forms.{called_body};
ghost use Rattle.sheet_rules.specs.Types.{is_of, is_statement, literal_type, variable_at, has_class, name_range, parameters_of};

use sheet::{BODIES, DECLARATIONS, NAMES, Range, Record};
use sheet_opened::Reader;
use sheet_rules::Typed;

pub fn type_at(sheet: &Reader, d: usize) -> usize
    ensures { result ≡ type_at sheet.now.sheet.now d }
{
    sheet_fields::field_at(sheet, DECLARATIONS, d, 0)
}

pub fn is_clock(t: usize) -> bool
    ensures { result ≡ is_clock t }
{
    if t < 4 {
        return false;
    }
    t <= 6
}

pub fn is_of(x: Typed, t: usize) -> bool
    ensures { result ≡ is_of x t }
{
    match x {
        Typed::Expression(u) => u == t,
        Typed::Statement => false,
        Typed::Wrong => false,
    }
}

pub fn is_statement(x: Typed) -> bool
    ensures { result ≡ is_statement x }
{
    match x {
        Typed::Expression(_) => false,
        Typed::Statement => true,
        Typed::Wrong => false,
    }
}

pub fn literal_type(r: Record) -> usize
    ensures { result ≡ literal_type r }
{
    let op = r.f0;
    match op {
        1 => 0,
        2 => 1,
        3 => 8 + r.f1 as usize,
        5 => 3,
        _ => 2,
    }
}

// The declaration of a variable: place 0 a chart parameter, 1 a chart variable, 2 of the body.
pub fn variable_at(c: Record, b: Record, place: u16, n: u16) -> usize
    ensures { result ≡ variable_at c b place n }
{
    match place {
        0 => c.f0 as usize + n as usize,
        1 => c.f2 as usize + n as usize,
        _ => {
            if n < b.f4 {
                b.f3 as usize + n as usize
            } else {
                b.f5 as usize + (n as usize - b.f4 as usize)
            }
        }
    }
}

// The type of variable n of chart c.
pub fn chart_variable_type(sheet: &Reader, c: Record, n: u16) -> usize
    ensures { result ≡ type_at sheet.now.sheet.now (c.f2 + n) }
{
    type_at(sheet, c.f2 as usize + n as usize)
}

// Whether name n is of a class.
pub fn has_class(sheet: &Reader, n: usize, kind: u16) -> bool
    ensures { result ≡ has_class sheet.now.sheet.now n kind }
{
    let Some(r) = sheet.record(NAMES, n) else {
        return false;
    };
    r.f2 == kind
}

// The data of name n.
pub fn name_range(sheet: &Reader, n: usize) -> Range
    ensures { (result ≡ name_range sheet.now.sheet.now n) × (result.first < 65536) × (result.count < 65536) }
{
    let Some(r) = sheet.record(NAMES, n) else {
        return Range { first: 0, count: 0 };
    };
    Range {
        first: r.f0 as usize,
        count: r.f1 as usize,
    }
}

// The body that a call in chart c names.
pub fn called_body(sheet: &Reader, c: Record, r: Record) -> Option<Record>
    ensures { result ≡ called_body sheet.now.sheet.now c r }
{
    if c.f5 <= r.f1 {
        return None;
    }
    sheet.record(BODIES, c.f4 as usize + r.f1 as usize)
}

// Its parameters.
pub fn called_range(sheet: &Reader, c: Record, r: Record) -> Range
    ensures { (result ≡ parameters_of (called_body sheet.now.sheet.now c r)) × (result.first < 65536) × (result.count < 65536) }
{
    let Some(b) = called_body(sheet, c, r) else {
        return Range { first: 0, count: 0 };
    };
    Range {
        first: b.f3 as usize,
        count: b.f4 as usize,
    }
}
