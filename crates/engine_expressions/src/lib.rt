// What an expression gives.
#![tactic(auto)]

ghost use Rattle.std.specs.Prelude.{◌≡◌};
ghost use Rattle.machine.specs.Eval.{eval_of};
ghost use Rattle.engine_ints.specs.Work.{work_of};
ghost use Rattle.engine_ready.specs.Ready.{context_at, Ready, IsExpression};

use engine_context::{ELEMENT, Frame, Locals};
use engine_ints::{Stop, Work};
use sheet::NODES;
use sheet_opened::Reader;

// What node n gives, with that many steps left.
pub fn eval(sheet: &Reader, context: &Frame, st: &[i32], lo: &Locals, n: usize, left: u32) -> Work
    requires { Ready sheet.now.sheet.now context.now st.now lo.now × IsExpression sheet.now.sheet.now context.now n }
    ensures { result ≡ work_of (eval_of sheet.now.sheet.now (context_at sheet.now.sheet.now context.now) st.now lo.now n left) }
{
    if left == 0 {
        return Err(Stop::Refused {
            number: 10,
            left: 0,
        });
    }
    let rest = left - 1;
    let Some(r) = sheet.record(NODES, n) else {
        return Err(Stop::Stuck);
    };
    let op = r.f0;
    match op {
        1..=6 => Ok((engine_leaves::literal(context[ELEMENT], r), rest)),
        7 => engine_leaves::variable(sheet, context, st, lo, n, r, rest),
        8 => {
            let (word, left) = eval(sheet, context, st, lo, r.f1 as usize, rest)?;
            engine_ints::not(word, left)
        }
        9..=16 => {
            let (first, left) = eval(sheet, context, st, lo, r.f1 as usize, rest)?;
            let (second, left) = eval(sheet, context, st, lo, r.f2 as usize, left)?;
            engine_ints::binary(op, first, second, left)
        }
        // "17 gives the clock's running word, 18 its value"
        17 => Ok((
            engine_leaves::cell_word(context, st, r.f1 as usize, 0),
            rest,
        )),
        18 => Ok((
            engine_leaves::cell_word(context, st, r.f1 as usize, 1),
            rest,
        )),
        19 => {
            let (index, left) = eval(sheet, context, st, lo, r.f2 as usize, rest)?;
            engine_leaves::element_at(context, st, r.f1 as usize, index, left)
        }
        _ => Err(Stop::Stuck),
    }
}
