// Whether an event's nine words are well formed, kind by kind.
#![tactic(auto)]

ghost use Rattle.std.specs.Prelude.{◌≡◌, ◌<◌, ◌≤◌, length};
ghost use Rattle.machine.specs.State.{word_of};
ghost use Rattle.machine.specs.Kinds as kind;
ghost use Rattle.machine.specs.Play.{words_of_event, rest_zero, bound_word, well_formed};

use machine::EVENT_WORDS;
use sheet_opened::Reader;

// Whether the words from number i on are 0.
pub fn rest_zero(ev: &[i32], i: usize) -> bool
    requires { (length ev.now ≡ words_of_event) × (i ≤ words_of_event) }
    ensures { result ≡ rest_zero ev.now i }
{
    let count = EVENT_WORDS - i;
    for k in 0..count {
        if !engine_valid_words::zero_at(ev, i + k) {
            return false;
        }
    }
    true
}

// Whether word i is a bound element.
fn bound_word(sheet: &Reader, ev: &[i32], i: usize) -> bool
    requires { i < length ev.now }
    ensures { result ≡ bound_word sheet.now.sheet.now (word_of ev.now i) }
{
    if !engine_valid_words::below_at(ev, i, engine_valid_values::components(sheet)) {
        return false;
    }
    !engine_valid_words::below_at(ev, i, engine_valid_values::externals(sheet))
}

// Kind 1, Outside: from an external component to a bound element.
pub fn outside_formed(sheet: &Reader, ev: &[i32]) -> bool
    requires { length ev.now ≡ words_of_event }
    ensures { result ≡ well_formed sheet.now.sheet.now ev.now kind.outside }
{
    if !engine_valid_words::below_at(ev, 1, engine_valid_values::externals(sheet)) {
        return false;
    }
    if !bound_word(sheet, ev, 2) {
        return false;
    }
    if !engine_valid_words::below_at(ev, 3, engine_valid_values::ports(sheet)) {
        return false;
    }
    engine_valid_names::name_fits(sheet, 0, ev, 4)
}

// Kind 2, Deliver: between components that are not both external.
pub fn deliver_formed(sheet: &Reader, ev: &[i32]) -> bool
    requires { length ev.now ≡ words_of_event }
    ensures { result ≡ well_formed sheet.now.sheet.now ev.now kind.deliver }
{
    let count = engine_valid_values::components(sheet);
    if !engine_valid_words::below_at(ev, 1, count) {
        return false;
    }
    if !engine_valid_words::below_at(ev, 2, count) {
        return false;
    }
    if engine_valid_values::both_external(sheet, ev, 1) {
        return false;
    }
    rest_zero(ev, 3)
}

// Kind 3, Corrupt: to a bound element.
pub fn corrupt_formed(sheet: &Reader, ev: &[i32]) -> bool
    requires { length ev.now ≡ words_of_event }
    ensures { result ≡ well_formed sheet.now.sheet.now ev.now kind.corrupt }
{
    if !engine_valid_words::below_at(ev, 1, engine_valid_values::components(sheet)) {
        return false;
    }
    if !bound_word(sheet, ev, 2) {
        return false;
    }
    rest_zero(ev, 3)
}

// Kind 4, Inner: of a component.
pub fn inner_formed(sheet: &Reader, ev: &[i32]) -> bool
    requires { length ev.now ≡ words_of_event }
    ensures { result ≡ well_formed sheet.now.sheet.now ev.now kind.inner }
{
    if !engine_valid_words::zero_at(ev, 1) {
        return false;
    }
    if !engine_valid_words::below_at(ev, 2, engine_valid_values::components(sheet)) {
        return false;
    }
    rest_zero(ev, 3)
}
