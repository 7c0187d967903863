// The internal reactions of a chart by name, in an array that holds a body's number plus 1, or 0.
#![tactic(auto)]

ghost use Rattle.std.specs.Prelude.{◌≡◌, length};
ghost use Rattle.sheet_rules.specs.Types.{reacts_to};
ghost use Rattle.sheet_types.specs.Table.{Table};
ghost use Rattle.checker_reactions.specs.Entries.{Entries, Entered};

use sheet::{BODIES, ByRecord, Record};
use sheet_opened::Reader;

// The reactions of a chart by name: its internal ones, the latest one to each name, and for a body the one before it
// to the same name. The arrays are handed from chart to chart as they are.
#[derive(Drop)]
pub struct Tables {
    pub internal: ByRecord,
    pub last: ByRecord,
    pub previous: ByRecord,
}

// Enters body i in the table of internal reactions, if it is one.
fn enter(sheet: &Reader, table: &mut ByRecord, i: usize)
    requires table_len { length table.old ≡ 4096 }
    ensures { Entered sheet.now.sheet.now reacts_to i table.old table.new }
{
    let Some(b) = sheet.record(BODIES, i) else {
        return;
    };
    if b.f0 != 3 {
        return;
    }
    let n = b.f2 as usize;
    if 4096 <= n {
        return;
    }
    table[n] = (i + 1) as u16;
}

// Enters the internal reactions of chart c. What other charts left there stays: a body that is not
// of this chart, or one that reacts to that name in it too.
pub fn fill(sheet: &Reader, table: &mut ByRecord, c: Record)
    requires entries { Entries sheet.now.sheet.now reacts_to table.old }
    ensures { Entries sheet.now.sheet.now reacts_to table.new × Table sheet.now.sheet.now c table.new }
{
    let first = c.f4 as usize;
    let count = c.f5 as usize;
    for j in 0..count {
        enter(sheet, table, first + j);
    }
}
