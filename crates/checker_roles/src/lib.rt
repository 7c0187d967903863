// Declaration ranges without clocks and arrays, and what a body's role asks of it.
#![tactic(auto)]

ghost use Rattle.std.specs.Prelude.{◌≡◌, ◌<◌, ◌≤◌};
ghost use Rattle.sheet.specs.Names.{body_parameters, body_locals};
ghost use Rattle.sheet_rules.specs.Fields.{one_if};
ghost use Rattle.sheet_rules.specs.Static.{plain_data, same_types, reaction_static, role_static, bodies_with, has_role};

use sheet::{BODIES, Range, Record};
use sheet_opened::Reader;

// "clocks .. stand in no declaration range but chart variables", nor does an array.
pub fn plain_data(sheet: &Reader, g: Range) -> bool
    requires { (g.first < 65536) × (g.count < 65536) }
    ensures { result ≡ plain_data sheet.now.sheet.now g }
{
    let first = g.first;
    let count = g.count;
    for j in 0..count {
        if sheet_types::is_clock(sheet_types::type_at(sheet, first + j)) {
            return false;
        }
        if !sheet_indices::is_plain(sheet, first + j) {
            return false;
        }
    }
    true
}

// Whether two ranges of declarations have the same types in order.
fn same_types(sheet: &Reader, g: Range, h: Range) -> bool
    requires { (g.first < 65536) × (g.count < 65536) × (h.first < 65536) }
    ensures { result ≡ same_types sheet.now.sheet.now g h }
{
    let count = g.count;
    let from = g.first;
    let with = h.first;
    if count != h.count {
        return false;
    }
    for j in 0..count {
        if sheet_types::type_at(sheet, from + j) != sheet_types::type_at(sheet, with + j) {
            return false;
        }
    }
    true
}

pub fn parameters(b: Record) -> Range
    ensures { (result ≡ body_parameters b) × (result.first < 65536) × (result.count < 65536) }
{
    Range {
        first: b.f3 as usize,
        count: b.f4 as usize,
    }
}

pub fn locals(b: Record) -> Range
    ensures { (result ≡ body_locals b) × (result.first < 65536) × (result.count < 65536) }
{
    Range {
        first: b.f5 as usize,
        count: b.f6 as usize,
    }
}

fn reaction_static(sheet: &Reader, b: Record) -> bool
    ensures { result ≡ reaction_static sheet.now.sheet.now b }
{
    let name = b.f2 as usize;
    if b.f0 == 2 {
        if !sheet_types::has_class(sheet, name, 0) {
            return false;
        }
        return same_types(sheet, parameters(b), sheet_types::name_range(sheet, name));
    }
    if !sheet_types::has_class(sheet, name, 1) {
        return false;
    }
    same_types(sheet, parameters(b), sheet_types::name_range(sheet, name))
}

pub fn role_static(sheet: &Reader, b: Record) -> bool
    ensures { result ≡ role_static sheet.now.sheet.now b }
{
    let role = b.f0;
    match role {
        0..=1 => b.f4 == 0,
        2..=3 => reaction_static(sheet, b),
        _ => true,
    }
}

// How many bodies of chart c have a role.
pub fn bodies_with(sheet: &Reader, c: Record, role: u16) -> usize
    ensures { result ≡ bodies_with sheet.now.sheet.now c role }
{
    let first = c.f4 as usize;
    let count = c.f5 as usize;
    let mut n: usize = 0;
    for j in 0..count {
        n += role_count(sheet, first + j, role);
    }
    n
}

// 1 if body i has a role, else 0.
fn role_count(sheet: &Reader, i: usize, role: u16) -> usize
    ensures { (result ≡ one_if (has_role sheet.now.sheet.now i role)) × (result ≤ 1) }
{
    let Some(b) = sheet.record(BODIES, i) else {
        return 0;
    };
    if b.f0 == role { 1 } else { 0 }
}
