// Which records bind an element, and where in them the constant for a parameter stands.
#![tactic(auto)]

ghost use Rattle.std.specs.Prelude.{◌≡◌, ℕ, ◌+◌, ◌≤◌, ◌<◌, Bool};
ghost use Rattle.sheet.specs.All.{all_below};
ghost use Rattle.sheet_rules.specs.Fields.{holds};
ghost use Rattle.sheet_rules.specs.Bindings.{records_for, chart_bound, behind, elements_bound_in, first_binding, constant_record, constant_field, constant_binding, constant_of};
ghost use Rattle.sheet_bindings.specs.Tests.{Asked, Tests, AskedBoth, TestsBoth};

use sheet::{BINDINGS, CHARTS, Record};
use sheet_opened::Reader;

// ---- records

// How many records bind an element whose chart has n parameters.
pub fn records_for(n: u16) -> usize
    ensures { (result ≡ records_for n) × (result ≤ 2) }
{
    if n <= 7 {
        return 1;
    }
    2
}

// The chart that record k names.
pub fn chart_bound(sheet: &Reader, k: usize) -> Option<Record>
    ensures { result ≡ chart_bound sheet.now.sheet.now k }
{
    let Some(b) = sheet.record(BINDINGS, k) else {
        return None;
    };
    sheet.record(CHARTS, b.f0 as usize)
}

// The record behind those of the element whose first one is k. An element's first record is at most at
// twice its number, which has 16 bits.
pub fn record_behind(sheet: &Reader, k: usize) -> usize
    requires { k ≤ 131072 }
    ensures { (result ≡ behind sheet.now.sheet.now k) × (result ≤ k + 2) }
{
    let Some(c) = chart_bound(sheet, k) else {
        return k + 1;
    };
    k + records_for(c.f1)
}

// How many elements the section binds.
pub fn elements_bound(sheet: &Reader) -> usize
    ensures { (result ≡ elements_bound_in sheet.now.sheet.now) × (result < 65536) }
{
    let count = sheet.count(BINDINGS);
    let mut n: usize = 0;
    let mut k: usize = 0;
    // A while, as an element takes one record or two.
    while k < count {
        k = record_behind(sheet, k);
        n += 1;
    }
    n
}

// ---- constants

// The record with the constant for parameter j, where the element's first one is k.
pub fn constant_record(k: usize, j: usize) -> usize
    requires { k ≤ 131072 }
    ensures { result ≡ constant_record k j }
{
    if j < 7 {
        return k;
    }
    k + 1
}

// The constant's field in that record.
pub fn constant_field(j: usize) -> usize
    requires { j < 65536 }
    ensures { result ≡ constant_field j }
{
    if j < 7 {
        return 1 + j;
    }
    j - 6
}

// ---- every element, every constant

// Whether a test holds for every element, which it takes by the first of its records.
pub fn every_element<F: Fn(usize) -> bool>(sheet: &Reader, met: F) -> bool
    requires { Asked (F.pre met) }
    ensures { (p : ℕ → Bool) → Tests (F.post met) p → result ≡ all_below (elements_bound_in sheet.now.sheet.now) (λ i. p (first_binding sheet.now.sheet.now i)) }
{
    let count = sheet.count(BINDINGS);
    let mut k: usize = 0;
    // The same.
    while k < count {
        if !met(k) {
            return false;
        }
        k = record_behind(sheet, k);
    }
    true
}

// Whether a test holds for the constants of the element whose first record is k, one for each of so many parameters: it
// takes the parameter's number and the constant's node.
pub fn every_constant<F: Fn(usize, usize) -> bool>(
    sheet: &Reader,
    k: usize,
    parameters: u16,
    fits: F,
) -> bool
    requires near { k ≤ 131072 }
    requires asked { AskedBoth (F.pre fits) }
    ensures { (p : ℕ → ℕ → Bool) → TestsBoth (F.post fits) p → result ≡ all_below parameters (λ j. holds (constant_binding sheet.now.sheet.now k j) (λ b. p j (constant_of b j))) }
{
    let count = parameters as usize;
    for j in 0..count {
        let Some(b) = sheet.record(BINDINGS, constant_record(k, j)) else {
            return false;
        };
        let n = sheet_fields::field(b, constant_field(j));
        if !fits(j, n) {
            return false;
        }
    }
    true
}
