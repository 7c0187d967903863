// What a statement does.
#![tactic(auto)]

ghost use Rattle.std.specs.Prelude.{◌≡◌, List, suc, ◌≤◌, length, ℤ};
ghost use Rattle.sheet_rules.specs.Forms.{call, loop};
ghost use Rattle.machine.specs.Run.{world, entered, run_of};
ghost use Rattle.engine_ints.specs.Work.{ran_of};
ghost use Rattle.engine_ready.specs.Ready.{context_at, Ready, IsStatement};
ghost use Rattle.engine_data.specs.Visit.{Visit};
ghost use Rattle.engine_statements.specs.Callable.{Callable};

use engine_context::{FIRST_BODY, Frame, Locals};
use engine_ints::Stop;
use machine::Data;
use sheet::{BODIES, NODES, Range, Record};
use sheet_opened::Reader;

// "a 17th open call": 9. The called body has variables of its own.
#[cycle(call_enter_repeat_run)]
fn enter(
    sheet: &Reader,
    context: &Frame,
    st: &mut [i32],
    depth: u32,
    number: usize,
    b: Record,
    d: &Data,
    left: u32,
) -> Result<u32, Stop>
    requires { Callable sheet.now.sheet.now context.now st.old number b d.now × (depth ≤ 16) }
    ensures { (lo : List ℤ) → world (ran_of result) st.new lo ≡ entered sheet.now.sheet.now (context_at sheet.now.sheet.now context.now) (run_of sheet.now.sheet.now) depth b d.now left st.old lo }
{
    if 16 <= depth {
        return Err(Stop::Refused { number: 9, left });
    }
    let inner = engine_context::inner(context, number);
    let mut locals = engine_defaults::fresh_locals(sheet, b, d);
    run(
        sheet,
        &inner,
        st,
        &mut locals,
        depth + 1,
        b.f7 as usize,
        left,
    )
}

// A procedure of the chart, with the node's data as its parameters.
#[cycle(call_enter_repeat_run)]
fn call(
    sheet: &Reader,
    context: &Frame,
    st: &mut [i32],
    lo: &Locals,
    depth: u32,
    n: usize,
    r: Record,
    left: u32,
) -> Result<u32, Stop>
    requires { Visit sheet.now.sheet.now context.now st.old lo.now n r call × (depth ≤ 16) }
    ensures { world (ran_of result) st.new lo.now ≡ run_of sheet.now.sheet.now depth (context_at sheet.now.sheet.now context.now) n (suc left) st.old lo.now }
{
    let number = context[FIRST_BODY] + r.f1 as usize;
    let Some(b) = sheet.record(BODIES, number) else {
        return Err(Stop::Stuck);
    };
    let g = Range {
        first: b.f3 as usize,
        count: b.f4 as usize,
    };
    let (data, left) = engine_data::gather(sheet, context, st, lo, r, g, left)?;
    enter(sheet, context, st, depth, number, b, &data, left)
}

// "42 is visited anew before each test"
#[cycle(call_enter_repeat_run)]
fn repeat(
    sheet: &Reader,
    context: &Frame,
    st: &mut [i32],
    lo: &mut Locals,
    depth: u32,
    n: usize,
    r: Record,
    left: u32,
) -> Result<u32, Stop>
    requires { Visit sheet.now.sheet.now context.now st.old lo.old n r loop × (depth ≤ 16) }
    ensures { (length lo.new ≡ 16) × (world (ran_of result) st.new lo.new ≡ run_of sheet.now.sheet.now depth (context_at sheet.now.sheet.now context.now) n (suc left) st.old lo.old) }
{
    let mut l = left;
    loop {
        let (word, rest) = engine_expressions::eval(sheet, context, st, lo, r.f1 as usize, l)?;
        if word == 0 {
            return Ok(rest);
        }
        let after = run(sheet, context, st, lo, depth, r.f2 as usize, rest)?;
        if after == 0 {
            return Err(Stop::Refused {
                number: 10,
                left: 0,
            });
        }
        l = after - 1;
    }
}

// What node n does, with that many steps left.
#[cycle(call_enter_repeat_run)]
pub fn run(
    sheet: &Reader,
    context: &Frame,
    st: &mut [i32],
    lo: &mut Locals,
    depth: u32,
    n: usize,
    left: u32,
) -> Result<u32, Stop>
    requires { Ready sheet.now.sheet.now context.now st.old lo.old × IsStatement sheet.now.sheet.now context.now n × (depth ≤ 16) }
    ensures { (length lo.new ≡ 16) × (world (ran_of result) st.new lo.new ≡ run_of sheet.now.sheet.now depth (context_at sheet.now.sheet.now context.now) n left st.old lo.old) }
{
    if left == 0 {
        return Err(Stop::Refused {
            number: 10,
            left: 0,
        });
    }
    let rest = left - 1;
    let Some(r) = sheet.record(NODES, n) else {
        return Err(Stop::Stuck);
    };
    let op = r.f0;
    match op {
        32 => Ok(rest),
        33 => engine_assigning::assign(sheet, context, st, lo, n, r, rest),
        34 => engine_sending::external_send(sheet, context, st, lo, n, r, rest),
        35 => engine_sending::internal_send(sheet, context, st, lo, n, r, rest),
        36..=37 => engine_arming::arming(sheet, context, st, lo, n, r, rest),
        38..=39 => engine_arming::clock(context, st, r, rest),
        40 => call(sheet, context, st, lo, depth, n, r, rest),
        41 => {
            let (word, left) = engine_expressions::eval(
                sheet,
                context,
                st,
                lo,
                r.f1 as usize,
                rest,
            )?;
            if word == 0 {
                run(sheet, context, st, lo, depth, r.f3 as usize, left)
            } else {
                run(sheet, context, st, lo, depth, r.f2 as usize, left)
            }
        }
        42 => repeat(sheet, context, st, lo, depth, n, r, rest),
        43 => {
            let after = run(sheet, context, st, lo, depth, r.f1 as usize, rest)?;
            run(sheet, context, st, lo, depth, r.f2 as usize, after)
        }
        44 => engine_assigning::assign_element(sheet, context, st, lo, n, r, rest),
        _ => Err(Stop::Stuck),
    }
}
