// A telegram that an event took goes to its receiver: it is handed outside, or a body of a bound
// element runs.
#![tactic(auto)]

ghost use Rattle.std.specs.Prelude.{true, false, ◌≡◌, nat_abs, Some};
ghost use Rattle.sheet_rules.specs.Fields.{externals_of};
ghost use Rattle.sheet_rules.specs.Types.{reacts_to};
ghost use Rattle.machine.specs.Values.{is_below, is_bound};
ghost use Rattle.machine.specs.Play.{ended, answer, element_body, reacting, panicking, delivered, limit_of};
ghost use Rattle.engine_cells.specs.Cells.{ChartAt};
ghost use Rattle.engine_delivery.specs.Arrived.{Beside, Arrived};

use engine_answering::answered;
use engine_cells::Yard;
use machine::{Answer, DATA, Telegram};
use sheet::{CHARTS, Record};

// Runs the panic body of element e, whose chart c is number n.
fn run_panic_body(yard: &Yard, old: &[i32], st: &mut [i32], e: usize, n: usize, c: Record) -> Answer
    requires { Beside yard.now.sheet.sheet.now old.now st.old × ChartAt yard.now.sheet.sheet.now e n c }
    ensures { ended result st.new ≡ panicking yard.now.sheet.sheet.now (limit_of yard.now.sheet.sheet.now) old.now e st.old }
{
    let j = engine_finders::with_role(&yard.sheet, c, 1);
    let none = [0i32; DATA];
    engine_bodies::event_body(yard, old, st, e, n, c, c.f4 as usize + j, &none)
}

// 3: "as 2 with bound r, but the panic body runs": that of element e.
pub fn panicked(yard: &Yard, old: &[i32], st: &mut [i32], e: usize) -> Answer
    requires { Beside yard.now.sheet.sheet.now old.now st.old × (is_bound yard.now.sheet.sheet.now e ≡ true) }
    ensures { ended result st.new ≡ panicking yard.now.sheet.sheet.now (limit_of yard.now.sheet.sheet.now) old.now e st.old }
{
    let n = yard.chart_number(e);
    let Some(c) = yard.sheet.record(CHARTS, n) else {
        prove!(false);
        return answered(4, 0);
    };
    run_panic_body(yard, old, st, e, n, c)
}

// A telegram that was removed reaches a bound element.
fn deliver_to_element(yard: &Yard, old: &[i32], st: &mut [i32], t: Telegram) -> Answer
    requires { Arrived yard.now.sheet.sheet.now old.now st.old t false × (is_below t.receiver (externals_of yard.now.sheet.sheet.now) ≡ false) }
    ensures { ended result st.new ≡ delivered yard.now.sheet.sheet.now (limit_of yard.now.sheet.sheet.now) old.now t st.old }
{
    let e = engine_valid_words::number(t.receiver);
    let n = yard.chart_number(e);
    let Some(c) = yard.sheet.record(CHARTS, n) else {
        prove!(false);
        return answered(4, 0);
    };
    let j = engine_finders::reaction_on(
        &yard.sheet,
        c,
        engine_valid_words::number(t.port),
        engine_valid_words::number(t.name),
    );
    if j < c.f5 as usize {
        let brought = [t.d0, t.d1, t.d2, t.d3];
        return engine_bodies::event_body(yard, old, st, e, n, c, c.f4 as usize + j, &brought);
    }
    run_panic_body(yard, old, st, e, n, c)
}

// Handed outside: no body runs.
fn handed(t: Telegram) -> Answer
    ensures { result ≡ answer 0 0 (Some t) }
{
    Answer {
        number: 0,
        steps: 0,
        dropped: 0,
        handed: Some(t),
    }
}

// 2: "If r is external it is handed outside. If bound, the reaction for its port and name runs, or
// without one the panic body."
pub fn delivers(yard: &Yard, old: &[i32], st: &mut [i32], t: Telegram) -> Answer
    requires { Arrived yard.now.sheet.sheet.now old.now st.old t false }
    ensures { ended result st.new ≡ delivered yard.now.sheet.sheet.now (limit_of yard.now.sheet.sheet.now) old.now t st.old }
{
    if engine_valid_words::is_below(t.receiver, engine_valid_values::externals(&yard.sheet)) {
        return handed(t);
    }
    deliver_to_element(yard, old, st, t)
}

// 4: an internal telegram that was removed: "its reaction runs"
pub fn reacts(yard: &Yard, old: &[i32], st: &mut [i32], t: Telegram) -> Answer
    requires { Arrived yard.now.sheet.sheet.now old.now st.old t true }
    ensures { ended result st.new ≡ reacting yard.now.sheet.sheet.now (limit_of yard.now.sheet.sheet.now) old.now (nat_abs t.receiver) (element_body yard.now.sheet.sheet.now (nat_abs t.receiver) (reacts_to (nat_abs t.name))) t st.old }
{
    let e = engine_valid_words::number(t.receiver);
    let n = yard.chart_number(e);
    let Some(c) = yard.sheet.record(CHARTS, n) else {
        prove!(false);
        return answered(4, 0);
    };
    let j = engine_finders::reaction_to(&yard.sheet, c, engine_valid_words::number(t.name));
    let brought = [t.d0, t.d1, t.d2, t.d3];
    engine_bodies::event_body(yard, old, st, e, n, c, c.f4 as usize + j, &brought)
}
