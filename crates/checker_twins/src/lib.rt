// Two reactions of a chart to the same: reactions by name, from the latest one back, in arrays that hold a
// body's number plus 1, or 0.
#![tactic(auto)]

ghost use Rattle.std.specs.Prelude.{◌≡◌, true, ◌+◌, ◌<◌, ◌≤◌, length};
ghost use Rattle.sheet_rules.specs.Shape.{is_reaction};
ghost use Rattle.sheet_rules.specs.Static.{same_reaction, no_twin};
ghost use Rattle.checker_reactions.specs.Entries.{up_to, Chains, Linked};

use checker_reactions::Tables;
use sheet::{BODIES, Record};
use sheet_opened::Reader;

fn is_reaction(b: Record) -> bool
    ensures { result ≡ is_reaction b.f0 }
{
    if b.f0 < 2 {
        return false;
    }
    b.f0 <= 3
}

fn same_reaction(a: Record, b: Record) -> bool
    ensures { result ≡ same_reaction a b }
{
    if a.f0 < 2 {
        return false;
    }
    if 3 < a.f0 {
        return false;
    }
    if a.f0 != b.f0 {
        return false;
    }
    if a.f1 != b.f1 {
        return false;
    }
    a.f2 == b.f2
}

// An entry, if it is a body before body i.
fn earlier(e: u16, i: usize) -> usize
    ensures { (result ≡ up_to i e) × (result ≤ i) }
{
    if i < e as usize {
        return 0;
    }
    e as usize
}

// Whether no body of chart c before body j, which is b, reacts to the same. Only those that react
// to its name are compared, from the latest one back.
pub fn no_twin(sheet: &Reader, tables: &Tables, c: Record, j: usize, b: Record) -> bool
    requires j_bound { j < 65536 }
    requires j_bound_2 { c.f4 + j < 4096 }
    requires chains { Chains sheet.now.sheet.now c.f4 (c.f4 + j) tables.now.last tables.now.previous }
    requires f2_bound { is_reaction b.f0 ≡ true → b.f2 < 4096 }
    ensures { result ≡ no_twin sheet.now.sheet.now c j b }
{
    if !is_reaction(b) {
        return true;
    }
    let first = c.f4 as usize;
    let mut e = earlier(tables.last[b.f2 as usize], first + j);
    // A while, as each entry tells the next one.
    while first < e {
        let i = e - 1;
        let Some(a) = sheet.record(BODIES, i) else {
            return false;
        };
        if same_reaction(a, b) {
            return false;
        }
        e = earlier(tables.previous[i], i);
    }
    true
}

// Enters body i, which is b, as the latest reaction to its name.
pub fn link(tables: &mut Tables, i: usize, b: Record)
    requires last_len { (length tables.old.last ≡ 4096) × (length tables.old.previous ≡ 4096) × (i < 4096) }
    requires f2_bound { is_reaction b.f0 ≡ true → b.f2 < 4096 }
    ensures linked { Linked b i tables.old.last tables.new.last tables.old.previous tables.new.previous }
    ensures internal { tables.new.internal ≡ tables.old.internal }
{
    if !is_reaction(b) {
        return;
    }
    let n = b.f2 as usize;
    tables.previous[i] = tables.last[n];
    tables.last[n] = (i + 1) as u16;
}
