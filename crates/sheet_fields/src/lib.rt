// Fields of records by number, and where a node's operands stand.
#![tactic(auto)]

ghost use Rattle.std.specs.Prelude.{◌≡◌, ◌+◌, ◌<◌};
ghost use Rattle.sheet.specs.Names.{range};
ghost use Rattle.sheet_rules.specs.Fields.{field_of, zero_from, field_at, in_section};
ghost use Rattle.sheet_fields.specs.Small.{Small};
ghost use Rattle.sheet_rules.specs.Forms.{call_data, operands_of, operand_at};

use sheet::{BODIES, NAMES, Record};
use sheet_opened::Reader;
use sheet_rules::Operands;

pub fn field(r: Record, i: usize) -> usize
    ensures { (result ≡ field_of r i) × (result < 65536) }
{
    match i {
        0 => r.f0 as usize,
        1 => r.f1 as usize,
        2 => r.f2 as usize,
        3 => r.f3 as usize,
        4 => r.f4 as usize,
        5 => r.f5 as usize,
        6 => r.f6 as usize,
        7 => r.f7 as usize,
        _ => 0,
    }
}

// Whether the fields from number n on are 0.
pub fn zero_from(r: Record, n: usize) -> bool
    ensures { result ≡ zero_from n r }
{
    if 8 <= n {
        return true;
    }
    for i in 0..8 - n {
        if field(r, n + i) != 0 {
            return false;
        }
    }
    true
}

// A field of a record, 0 where there is none.
pub fn field_at(sheet: &Reader, section: usize, number: usize, i: usize) -> usize
    ensures { (result ≡ field_at sheet.now.sheet.now section number i) × (result < 65536) }
{
    let Some(r) = sheet.record(section, number) else {
        return 0;
    };
    field(r, i)
}

// Whether a range of records ends within its section.
pub fn in_section(sheet: &Reader, section: usize, first: u16, count: u16) -> bool
    ensures { result ≡ in_section sheet.now.sheet.now section (range first count) }
{
    first as usize + count as usize <= sheet.count(section)
}

// How many data fields a call in chart c uses.
pub fn call_data(sheet: &Reader, c: Record, r: Record) -> usize
    ensures { (result ≡ call_data sheet.now.sheet.now c r) × (result < 65536) }
{
    if c.f5 <= r.f1 {
        return 0;
    }
    field_at(sheet, BODIES, c.f4 as usize + r.f1 as usize, 4)
}

// Where the operands of a node of chart c stand.
pub fn operands(sheet: &Reader, c: Record, r: Record) -> Operands
    ensures { (result ≡ operands_of sheet.now.sheet.now c r) × Small result }
{
    let op = r.f0;
    match op {
        8 => Operands {
            first: 1,
            count: 1,
            tail: 0,
        },
        9..=16 => Operands {
            first: 1,
            count: 2,
            tail: 0,
        },
        19 => Operands {
            first: 2,
            count: 1,
            tail: 0,
        },
        33 => Operands {
            first: 3,
            count: 1,
            tail: 0,
        },
        34 => {
            let tail = field_at(sheet, NAMES, r.f3 as usize, 1);
            Operands {
                first: 1,
                count: 2,
                tail: tail,
            }
        }
        35 => {
            let tail = field_at(sheet, NAMES, r.f3 as usize, 1);
            Operands {
                first: 1,
                count: 0,
                tail: tail,
            }
        }
        36..=37 => {
            let tail = field_at(sheet, NAMES, r.f3 as usize, 1);
            Operands {
                first: 2,
                count: 1,
                tail: tail,
            }
        }
        40 => {
            let tail = call_data(sheet, c, r);
            Operands {
                first: 1,
                count: 0,
                tail: tail,
            }
        }
        41 => Operands {
            first: 1,
            count: 3,
            tail: 0,
        },
        42..=43 => Operands {
            first: 1,
            count: 2,
            tail: 0,
        },
        44 => Operands {
            first: 2,
            count: 2,
            tail: 0,
        },
        _ => Operands {
            first: 1,
            count: 0,
            tail: 0,
        },
    }
}

// The operand numbered j.
pub fn operand(r: Record, o: Operands, j: usize) -> usize
    requires { Small o × (j < 100000) }
    ensures { (result ≡ operand_at r o j) × (result < 65536) }
{
    if j < o.count {
        field(r, o.first + j)
    } else {
        field(r, 4 + (j - o.count))
    }
}
