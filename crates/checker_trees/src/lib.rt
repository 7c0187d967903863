// The shape of the trees of nodes.
#![tactic(auto)]

ghost use Rattle.std.specs.Prelude.{◌≡◌};
ghost use Rattle.sheet_rules.specs.Shape.{tree_shape, trees_shape};
ghost use Rattle.sheet_rules.specs.Check.{nodes_shape};

use sheet::{BODIES, CHARTS, NODES, Record};
use sheet_opened::Reader;

// The tree of a node has at most that many levels, and each node of it fits its chart and body.
fn tree_fits(sheet: &Reader, c: Record, b: Record, levels: usize, n: usize) -> bool
    ensures { result ≡ tree_shape sheet.now.sheet.now c b levels n }
{
    if levels == 0 {
        return false;
    }
    let Some(r) = sheet.record(NODES, n) else {
        return false;
    };
    if !checker_fields::fields_fit(sheet, c, b, r) {
        return false;
    }
    let o = sheet_fields::operands(sheet, c, r);
    let count = o.count + o.tail;
    for j in 0..count {
        let m = sheet_fields::operand(r, o, j);
        if n <= m {
            return false;
        }
        if !tree_fits(sheet, c, b, levels - 1, m) {
            return false;
        }
    }
    true
}

// The trees of the bodies of chart c.
fn trees_fit(sheet: &Reader, c: Record) -> bool
    ensures { result ≡ trees_shape sheet.now.sheet.now c }
{
    let first = c.f4 as usize;
    let count = c.f5 as usize;
    for j in 0..count {
        let Some(b) = sheet.record(BODIES, first + j) else {
            return false;
        };
        if !tree_fits(sheet, c, b, 64, b.f7 as usize) {
            return false;
        }
    }
    true
}

// The trees of every chart's bodies.
pub fn nodes_fit(sheet: &Reader) -> bool
    ensures { result ≡ nodes_shape sheet.now.sheet.now }
{
    let count = sheet.count(CHARTS);
    for k in 0..count {
        let Some(c) = sheet.record(CHARTS, k) else {
            return false;
        };
        if !trees_fit(sheet, c) {
            return false;
        }
    }
    true
}
