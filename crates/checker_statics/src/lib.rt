// The static rules beside the types of nodes.
#![tactic(auto)]

ghost use Rattle.std.specs.Prelude.{◌≡◌, List, ℕ};
ghost use Rattle.sheet_rules.specs.Static.{declaration_static, name_static, record_static, each_static, section_static, static};
ghost use Rattle.checker_reactions.specs.Entries.{Ready};

use checker_reactions::Tables;
use sheet::{RECORDS, Range, Record};
use sheet_opened::Reader;

// "An array .. of clocks, gets 2", wherever it stands.
fn declaration_static(r: Record) -> bool
    ensures { (s : List ℕ) → result ≡ declaration_static s r }
{
    if !sheet_types::is_clock(r.f0 as usize) {
        return true;
    }
    r.f1 == 0
}

fn name_static(sheet: &Reader, r: Record) -> bool
    ensures { result ≡ name_static sheet.now.sheet.now r }
{
    let g = Range {
        first: r.f0 as usize,
        count: r.f1 as usize,
    };
    checker_roles::plain_data(sheet, g)
}

fn record_static(sheet: &Reader, tables: &mut Tables, k: usize, r: Record) -> bool
    requires { Ready sheet.now.sheet.now tables.old }
    ensures { (result ≡ record_static sheet.now.sheet.now k r) × Ready sheet.now.sheet.now tables.new }
{
    match k {
        2 => declaration_static(r),
        3 => name_static(sheet, r),
        4 => checker_chart_rules::chart_static(sheet, tables, r),
        _ => true,
    }
}

// Not one function with the walk of the shape: each record is judged with the tables that it may change.
fn records_static(sheet: &Reader, tables: &mut Tables, k: usize) -> bool
    requires { Ready sheet.now.sheet.now tables.old }
    ensures { (result ≡ each_static sheet.now.sheet.now k) × Ready sheet.now.sheet.now tables.new }
{
    let count = sheet.count(k);
    for i in 0..count {
        let Some(r) = sheet.record(k, i) else {
            return false;
        };
        if !record_static(sheet, tables, k, r) {
            return false;
        }
    }
    true
}

// The rules for nodes go by trees; none is for a node by itself. Those for bindings go element by element.
fn section_static(sheet: &Reader, tables: &mut Tables, k: usize) -> bool
    requires { Ready sheet.now.sheet.now tables.old }
    ensures { (result ≡ section_static sheet.now.sheet.now k) × Ready sheet.now.sheet.now tables.new }
{
    if k == 6 {
        return true;
    }
    if k == 7 {
        return checker_constants::bindings_static(sheet);
    }
    records_static(sheet, tables, k)
}

// Whether every static rule holds.
pub fn rules_hold(sheet: &Reader) -> bool
    ensures { result ≡ static sheet.now.sheet.now }
{
    let mut tables = Tables {
        internal: [0u16; RECORDS],
        last: [0u16; RECORDS],
        previous: [0u16; RECORDS],
    };
    for k in 0..8 {
        if !section_static(sheet, &mut tables, k) {
            return false;
        }
    }
    true
}
