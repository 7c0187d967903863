// Each node is used exactly once: one pass over bodies, bindings and nodes, with a mark for each node.
#![tactic(auto)]

ghost use Rattle.std.specs.Prelude.{◌≡◌, ℕ, ◌≤◌, ◌<◌, length, get_or, eqb};
ghost use Rattle.sheet.specs.All.{◌and◌};
ghost use Rattle.sheet.specs.Names.{charts, bindings, nodes};
ghost use Rattle.sheet.specs.Sheet.{count_of};
ghost use Rattle.sheet_rules.specs.Uses.{over_bodies, over_charts, over_bindings, constant_uses};
ghost use Rattle.checker_pass.specs.Marks.{Cleared, Marked, RootsMarked};
ghost use Rattle.checker_pass.specs.Test.{TestGives};

use checker_pass::Tested;
use sheet::{BINDINGS, CHARTS, NODES};
use sheet_opened::Reader;

// No node is named yet: the marks of the first `count` nodes are 0.
fn clear(marks: &mut [u16], count: usize)
    requires { count ≤ length marks.old }
    ensures { Cleared count marks.old marks.new }
{
    marks[..count].fill(0);
}

// All bodies name their roots. How many bodies were gone over.
fn mark_charts(sheet: &Reader, marks: &mut [u16], count: usize) -> usize
    requires count_in_bounds { count ≤ length marks.old }
    requires by_index { (n : ℕ) → n < count → get_or marks.old n 0 ≡ 0 }
    ensures { (result ≡ over_charts sheet.now.sheet.now (over_bodies sheet.now.sheet.now (λ b. 1))) × (result ≤ 268369920) × RootsMarked sheet.now.sheet.now (count_of sheet.now.sheet.now charts) count marks.old marks.new }
{
    let total = sheet.count(CHARTS);
    let mut gone: usize = 0;
    for i in 0..total {
        gone += checker_marks::mark_chart(sheet, marks, count, i);
    }
    gone
}

// All bindings name their constants. How many binding records were gone over: the number of the next one
// tells it.
fn mark_bindings(sheet: &Reader, marks: &mut [u16], count: usize) -> usize
    requires count_in_bounds { count ≤ length marks.old }
    ensures { (result ≡ count_of sheet.now.sheet.now bindings) × Marked count 0 marks.old marks.new (λ n. over_bindings sheet.now.sheet.now (constant_uses sheet.now.sheet.now n)) }
{
    let total = sheet.count(BINDINGS);
    let mut k: usize = 0;
    // A while, as an element takes one record or two.
    while k < total {
        k += checker_constant_marks::mark_binding(sheet, marks, count, k);
    }
    k
}

// Whether a node that is used so often, by its mark, leaves each used exactly once.
fn still_once(once: bool, used: u16) -> bool
    ensures { result ≡ (eqb used 1 and once) }
{
    if used == 1 {
        return once;
    }
    false
}

// Whether each node is used exactly once. A mark for each node is lent, whatever it holds, and ends as 0, 1 or 2.
// Operands are lower, so going down from the last node, whatever uses a node has been gone over before it.
pub fn used_once(sheet: &Reader, marks: &mut [u16]) -> Tested
    requires nodes_in_bounds { count_of sheet.now.sheet.now nodes ≤ length marks.old }
    ensures { TestGives sheet.now.sheet.now marks.old marks.new result }
{
    let count = sheet.count(NODES);
    clear(marks, count);
    let bodies = mark_charts(sheet, marks, count);
    let bindings = mark_bindings(sheet, marks, count);
    let mut gone = bodies + bindings;
    let mut once = true;
    for n in (0..count).rev() {
        let mark = marks[n];
        let used = mark % 4;
        marks[n] = used;
        once = still_once(once, used);
        gone += checker_operand_marks::mark_operands(sheet, marks, n, mark / 4);
    }
    Tested {
        once: once,
        records: gone,
    }
}
