// Marks of nodes: what names a node adds to its mark, and what the bodies of a chart add to those of their roots.
#![tactic(auto)]

ghost use Rattle.std.specs.Prelude.{◌≡◌, ◌+◌, ◌<◌, ◌≤◌, length, eqb};
ghost use Rattle.sheet.specs.Names.{root, bodies, charts};
ghost use Rattle.sheet.specs.Sheet.{record_of};
ghost use Rattle.sheet_rules.specs.Fields.{one_if, number_or0};
ghost use Rattle.sheet_rules.specs.Uses.{over_bodies, root_uses};
ghost use Rattle.checker_pass.specs.Marks.{named, marked, Marked};

use sheet::{BODIES, CHARTS};
use sheet_opened::Reader;

// A mark that is named once more: 0, 1, 2 and no further.
fn once_more(v: u16) -> u16
    ensures { result ≡ named v }
{
    if v % 4 < 2 {
        return v + 1;
    }
    v
}

// The same with home k, which is kept where there is none yet.
fn with_home(v: u16, k: u16) -> u16
    requires { k < 16384 }
    ensures { result ≡ marked k v }
{
    let used = once_more(v);
    if v < 4 {
        return used + 4 * k;
    }
    used
}

// Node n is named with home k; one that is not below `top` is passed over.
pub fn mark(marks: &mut [u16], top: usize, n: usize, k: u16)
    requires top_in_bounds { top ≤ length marks.old }
    requires k_bound { k < 16384 }
    ensures { Marked top k marks.old marks.new (λ i. one_if (eqb n i)) }
{
    if top <= n {
        return;
    }
    marks[n] = with_home(marks[n], k);
}

// A body names its root. How many records were gone over: one, if it is there.
fn mark_root(sheet: &Reader, marks: &mut [u16], count: usize, number: usize, k: u16) -> usize
    requires count_in_bounds { count ≤ length marks.old }
    requires k_bound { k < 16384 }
    ensures { (result ≡ number_or0 (record_of sheet.now.sheet.now bodies number) (λ b. 1)) × (result ≤ 1) × Marked count k marks.old marks.new (λ n. number_or0 (record_of sheet.now.sheet.now bodies number) (λ b. one_if (eqb (root b) n))) }
{
    let Some(b) = sheet.record(BODIES, number) else {
        return 0;
    };
    mark(marks, count, b.f7 as usize, k);
    1
}

// The bodies of chart i name their roots. How many bodies were gone over.
pub fn mark_chart(sheet: &Reader, marks: &mut [u16], count: usize, i: usize) -> usize
    requires count_in_bounds { count ≤ length marks.old }
    ensures { (result ≡ number_or0 (record_of sheet.now.sheet.now charts i) (over_bodies sheet.now.sheet.now (λ b. 1))) × (result < 65536) × Marked count (i + 1) marks.old marks.new (λ n. number_or0 (record_of sheet.now.sheet.now charts i) (root_uses sheet.now.sheet.now n)) }
{
    let Some(c) = sheet.record(CHARTS, i) else {
        return 0;
    };
    let k = (i + 1) as u16;
    let first = c.f4 as usize;
    let total = c.f5 as usize;
    let mut gone: usize = 0;
    for j in 0..total {
        gone += mark_root(sheet, marks, count, first + j, k);
    }
    gone
}
