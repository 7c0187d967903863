// Clocks armed, started and stopped.
#![tactic(auto)]

ghost use Rattle.std.specs.Prelude.{◌≡◌, List, ℕ, suc, ℤ};
ghost use Rattle.sheet_rules.specs.Forms.{arm, clock_act};
ghost use Rattle.sheet_rules.specs.Types.{clock_of};
ghost use Rattle.machine.specs.Run.{world, run_of};
ghost use Rattle.engine_ints.specs.Work.{ran_of};
ghost use Rattle.engine_ready.specs.Ready.{context_at, Lies};
ghost use Rattle.engine_data.specs.Visit.{Visit};
ghost use Rattle.engine_arming.specs.Armed.{armed_value};

use engine_context::{Frame, Locals};
use engine_ints::Stop;
use sheet::{NAMES, Record};
use sheet_opened::Reader;

// "Arming a Timeout sets its value to the period, a Cycler's to 0"
fn first_value(op: u16, period: i32) -> i32
    ensures { result ≡ armed_value (clock_of op) period }
{
    if op == 36 { period } else { 0 }
}

// "period below 1": 7.
pub fn arming(
    sheet: &Reader,
    context: &Frame,
    st: &mut [i32],
    lo: &Locals,
    n: usize,
    r: Record,
    left: u32,
) -> Result<u32, Stop>
    requires { Visit sheet.now.sheet.now context.now st.old lo.now n r arm }
    ensures { (depth : ℕ) → world (ran_of result) st.new lo.now ≡ run_of sheet.now.sheet.now depth (context_at sheet.now.sheet.now context.now) n (suc left) st.old lo.now }
{
    let Some(a) = sheet.record(NAMES, r.f3 as usize) else {
        return Err(Stop::Stuck);
    };
    let (period, left) = engine_expressions::eval(sheet, context, st, lo, r.f2 as usize, left)?;
    let g = engine_data::data_range(a);
    let (data, left) = engine_data::gather(sheet, context, st, lo, r, g, left)?;
    if period < 1 {
        return Err(Stop::Refused { number: 7, left });
    }
    engine_store::put_clock(
        st,
        engine_context::first_word(context, r.f1 as usize),
        1,
        first_value(r.f0, period),
        period,
        r.f3 as i32,
        &data,
    );
    Ok(left)
}

// "38 start Timer, 39 stop any clock"
pub fn clock(context: &Frame, st: &mut [i32], r: Record, left: u32) -> Result<u32, Stop>
    requires { Lies context.now st.old r.f1 }
    ensures { (s : List ℕ) (lo : List ℤ) (n depth : ℕ) → Visit s context.now st.old lo n r clock_act → world (ran_of result) st.new lo ≡ run_of s depth (context_at s context.now) n (suc left) st.old lo }
{
    let running = engine_ints::bool_word(r.f0 == 38);
    engine_store::set_cell(
        st,
        engine_context::first_word(context, r.f1 as usize),
        running,
    );
    Ok(left)
}
