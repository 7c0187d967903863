// What a node that names its operands adds to their marks.
#![tactic(auto)]

ghost use Rattle.std.specs.Prelude.{◌≡◌, ◌<◌, ◌≤◌, length};
ghost use Rattle.sheet.specs.Names.{nodes};
ghost use Rattle.sheet.specs.Sheet.{record_of};
ghost use Rattle.sheet_rules.specs.Fields.{number_or0};
ghost use Rattle.sheet_rules.specs.Forms.{operands_of};
ghost use Rattle.sheet_rules.specs.Uses.{home_chart, operand_uses};
ghost use Rattle.sheet_fields.specs.Small.{Small};
ghost use Rattle.checker_pass.specs.Marks.{Marked};

use sheet::{CHARTS, NODES, Record};
use sheet_opened::Reader;
use sheet_rules::Operands;

// The chart of a home, one without bodies for none.
fn home_chart(sheet: &Reader, k: u16) -> Record
    ensures { result ≡ home_chart sheet.now.sheet.now k }
{
    if k == 0 {
        return Record::default();
    }
    sheet.record(CHARTS, k as usize - 1).unwrap_or_default()
}

// Where the operands of a node with home k stand. Only those of a call depend on it.
fn operands_at(sheet: &Reader, k: u16, r: Record) -> Operands
    ensures { (result ≡ operands_of sheet.now.sheet.now (home_chart sheet.now.sheet.now k) r) × Small result }
{
    if r.f0 == 40 {
        let c = home_chart(sheet, k);
        return sheet_fields::operands(sheet, c, r);
    }
    let any = home_chart(sheet, 0);
    sheet_fields::operands(sheet, any, r)
}

// Node m with home k names its operands. How many records were gone over.
pub fn mark_operands(sheet: &Reader, marks: &mut [u16], m: usize, k: u16) -> usize
    requires m_in_bounds { m ≤ length marks.old }
    requires k_bound { k < 16384 }
    ensures { (result ≡ number_or0 (record_of sheet.now.sheet.now nodes m) (λ r. 1)) × (result ≤ 1) × Marked m k marks.old marks.new (operand_uses sheet.now.sheet.now (home_chart sheet.now.sheet.now k) m) }
{
    let Some(r) = sheet.record(NODES, m) else {
        return 0;
    };
    let gone: usize = 1;
    let o = operands_at(sheet, k, r);
    let total = o.count + o.tail;
    for j in 0..total {
        checker_marks::mark(marks, m, sheet_fields::operand(r, o, j), k);
    }
    gone
}
