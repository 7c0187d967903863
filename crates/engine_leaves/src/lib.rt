// What a node of an expression gives by itself: a literal, a variable, a clock's word; and the element of an array
// at an index that was given.
#![tactic(auto)]

ghost use Rattle.std.specs.Prelude.{◌≡◌, suc, ◌+◌, ◌<◌, Some};
ghost use Rattle.sheet.specs.Names.{nodes};
ghost use Rattle.sheet.specs.Sheet.{record_of};
ghost use Rattle.sheet_rules.specs.Forms.{read, form_of};
ghost use Rattle.machine.specs.State.{cell_at, word_of};
ghost use Rattle.machine.specs.Eval.{literal_value, eval_of};
ghost use Rattle.engine_ints.specs.Work.{work_of};
ghost use Rattle.engine_context.specs.Context.{cell_in, leads_to};
ghost use Rattle.engine_ready.specs.Ready.{context_at, Ready, Lies, Reaches, IsExpression};
ghost use Rattle.engine_ready.specs.Words.{element_word};

use engine_context::{BINDING, ELEMENT, Frame, Locals};
use engine_ints::{Stop, Work};
use sheet::{BINDINGS, NODES, Record};
use sheet_opened::Reader;

// The word that a literal writes down, in element e.
pub fn literal(e: usize, r: Record) -> i32
    requires { e < 65536 }
    ensures { result ≡ (literal_value e r).word }
{
    let op = r.f0;
    match op {
        1 => r.f1 as i32,
        2 => engine_words::signed(r.f1 as u32 + 65536 * (r.f2 as u32)),
        3 => r.f2 as i32,
        4 => r.f1 as i32,
        5 => r.f1 as i32,
        _ => e as i32,
    }
}

// Word k in the cell of the element's plain variable n.
pub fn cell_word(context: &Frame, st: &[i32], n: usize, k: usize) -> i32
    requires { Lies context.now st.now n × (k < 8) }
    ensures { result ≡ word_of st.now (cell_at (cell_in context.now n) + k) }
{
    st[engine_context::first_word(context, n) + k]
}

// The element of array n at index i; "11, index outside its number". An index of a data type is never
// outside.
pub fn element_at(context: &Frame, st: &[i32], n: usize, i: i32, left: u32) -> Work
    requires { Reaches context.now st.now n }
    ensures { result ≡ element_word st.now (leads_to context.now n i) left }
{
    let Some(k) = engine_context::element_word(context, n, i) else {
        return Err(Stop::Refused { number: 11, left });
    };
    Ok((st[k], left))
}

// A variable: place 0 the constant in the element's binding, 1 of the chart, 2 of the body.
pub fn variable(
    sheet: &Reader,
    context: &Frame,
    st: &[i32],
    lo: &Locals,
    n: usize,
    r: Record,
    left: u32,
) -> Work
    requires { Ready sheet.now.sheet.now context.now st.now lo.now × IsExpression sheet.now.sheet.now context.now n × (record_of sheet.now.sheet.now nodes n ≡ Some r) × (form_of r.f0 ≡ read) }
    ensures { result ≡ work_of (eval_of sheet.now.sheet.now (context_at sheet.now.sheet.now context.now) st.now lo.now n (suc left)) }
{
    let place = r.f1;
    let number = r.f2 as usize;
    match place {
        0 => {
            let k = sheet_bindings::constant_record(context[BINDING], number);
            let Some(b) = sheet.record(BINDINGS, k) else {
                return Err(Stop::Stuck);
            };
            let i = sheet_bindings::constant_field(number);
            let Some(c) = sheet.record(NODES, sheet_fields::field(b, i)) else {
                return Err(Stop::Stuck);
            };
            Ok((literal(context[ELEMENT], c), left))
        }
        1 => Ok((cell_word(context, st, number, 0), left)),
        2 => Ok((lo[number], left)),
        _ => Err(Stop::Stuck),
    }
}
