// Values assigned to variables and to elements of arrays.
#![tactic(auto)]

ghost use Rattle.std.specs.Prelude.{◌≡◌, List, ℕ, suc, ◌<◌, length};
ghost use Rattle.sheet_rules.specs.Forms.{assign, assign_element};
ghost use Rattle.machine.specs.State.{cell_at};
ghost use Rattle.machine.specs.Eval.{Context, variable_at_cell};
ghost use Rattle.machine.specs.Run.{world, assigned, run_of};
ghost use Rattle.engine_ints.specs.Work.{ran_of};
ghost use Rattle.engine_context.specs.Context.{cell_in};
ghost use Rattle.engine_ready.specs.Ready.{context_at, Lies};
ghost use Rattle.engine_data.specs.Visit.{Visit};

use engine_context::{Frame, Locals};
use engine_ints::Stop;
use sheet::Record;
use sheet_opened::Reader;

// A value to a plain variable: place 1 of the chart, 2 of the body.
fn put(
    context: &Frame,
    st: &mut [i32],
    lo: &mut Locals,
    place: u16,
    number: u16,
    z: i32,
    left: u32,
) -> Result<u32, Stop>
    requires { (length lo.old ≡ 16) × (place ≡ 1 → Lies context.now st.old number) × (place ≡ 2 → number < 16) }
    ensures { (length lo.new ≡ 16) × ((s : List ℕ) (x : Context) → (place ≡ 1 → variable_at_cell s x number 0 ≡ cell_at (cell_in context.now number)) → world (ran_of result) st.new lo.new ≡ assigned s x place number z left st.old lo.old) }
{
    match place {
        1 => {
            let at = engine_context::first_word(context, number as usize);
            st[at] = z;
            Ok(left)
        }
        2 => {
            lo[number as usize] = z;
            Ok(left)
        }
        _ => Err(Stop::Stuck),
    }
}

pub fn assign(
    sheet: &Reader,
    context: &Frame,
    st: &mut [i32],
    lo: &mut Locals,
    n: usize,
    r: Record,
    left: u32,
) -> Result<u32, Stop>
    requires { Visit sheet.now.sheet.now context.now st.old lo.old n r assign }
    ensures { (length lo.new ≡ 16) × ((depth : ℕ) → world (ran_of result) st.new lo.new ≡ run_of sheet.now.sheet.now depth (context_at sheet.now.sheet.now context.now) n (suc left) st.old lo.old) }
{
    let (word, left) = engine_expressions::eval(sheet, context, st, lo, r.f3 as usize, left)?;
    put(context, st, lo, r.f1, r.f2, word, left)
}

// "assign (44: f1 variable, f2 index, f3 value) an element"
pub fn assign_element(
    sheet: &Reader,
    context: &Frame,
    st: &mut [i32],
    lo: &Locals,
    n: usize,
    r: Record,
    left: u32,
) -> Result<u32, Stop>
    requires { Visit sheet.now.sheet.now context.now st.old lo.now n r assign_element }
    ensures { (depth : ℕ) → world (ran_of result) st.new lo.now ≡ run_of sheet.now.sheet.now depth (context_at sheet.now.sheet.now context.now) n (suc left) st.old lo.now }
{
    let (index, left) = engine_expressions::eval(sheet, context, st, lo, r.f2 as usize, left)?;
    let (value, left) = engine_expressions::eval(sheet, context, st, lo, r.f3 as usize, left)?;
    // "11, index outside its number"
    let Some(k) = engine_context::element_word(context, r.f1 as usize, index) else {
        return Err(Stop::Refused { number: 11, left });
    };
    st[k] = value;
    Ok(left)
}
