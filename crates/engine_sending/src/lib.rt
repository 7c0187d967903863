// Telegrams sent.
#![tactic(auto)]

ghost use Rattle.std.specs.Prelude.{◌≡◌, List, ℕ, suc, length, ℤ, Some};
ghost use Rattle.sheet.specs.Names.{data_of, names};
ghost use Rattle.sheet.specs.Sheet.{record_of};
ghost use Rattle.sheet_rules.specs.Forms.{external_send, internal_send};
ghost use Rattle.machine.specs.State.{state_length};
ghost use Rattle.machine.specs.Run.{world, append as appendOf, run_of};
ghost use Rattle.engine_ints.specs.Work.{ran_of};
ghost use Rattle.engine_queue.specs.Laid.{Laid};
ghost use Rattle.engine_ready.specs.Ready.{context_at, Ready, HasData};
ghost use Rattle.engine_data.specs.Visit.{Visit};
ghost use Rattle.engine_sending.specs.Sent.{sent};

use engine_context::{ELEMENT, Frame, Locals};
use engine_ints::Stop;
use machine::Telegram;
use sheet::{NAMES, Record};
use sheet_opened::Reader;

// "Sends append"
fn append(st: &mut [i32], t: Telegram, left: u32) -> Result<u32, Stop>
    requires { Laid st.old }
    ensures { (s : List ℕ) (lo : List ℤ) → length st.old ≡ state_length s → world (ran_of result) st.new lo ≡ appendOf s t left st.old lo }
{
    match engine_queue::append(st, t) {
        Ok(()) => Ok(left),
        Err(number) => Err(Stop::Refused { number, left }),
    }
}

// A telegram of the element, with name record a and the data of a node.
fn send(
    sheet: &Reader,
    context: &Frame,
    st: &mut [i32],
    lo: &Locals,
    r: Record,
    a: Record,
    receiver: i32,
    port: i32,
    left: u32,
) -> Result<u32, Stop>
    requires { Ready sheet.now.sheet.now context.now st.old lo.now × HasData sheet.now.sheet.now context.now st.old lo.now r (data_of a) × (record_of sheet.now.sheet.now names r.f3 ≡ Some a) }
    ensures { world (ran_of result) st.new lo.now ≡ sent sheet.now.sheet.now context.now st.old lo.now r a receiver port left }
{
    let g = engine_data::data_range(a);
    let (data, left) = engine_data::gather(sheet, context, st, lo, r, g, left)?;
    append(
        st,
        Telegram {
            sender: context[ELEMENT] as i32,
            receiver,
            port,
            name: r.f3 as i32,
            d0: data[0],
            d1: data[1],
            d2: data[2],
            d3: data[3],
        },
        left,
    )
}

// The receiver of a send, its port, then the telegram.
pub fn external_send(
    sheet: &Reader,
    context: &Frame,
    st: &mut [i32],
    lo: &Locals,
    n: usize,
    r: Record,
    left: u32,
) -> Result<u32, Stop>
    requires { Visit sheet.now.sheet.now context.now st.old lo.now n r external_send }
    ensures { (depth : ℕ) → world (ran_of result) st.new lo.now ≡ run_of sheet.now.sheet.now depth (context_at sheet.now.sheet.now context.now) n (suc left) st.old lo.now }
{
    let Some(a) = sheet.record(NAMES, r.f3 as usize) else {
        return Err(Stop::Stuck);
    };
    let (receiver, left) = engine_expressions::eval(sheet, context, st, lo, r.f1 as usize, left)?;
    let (port, left) = engine_expressions::eval(sheet, context, st, lo, r.f2 as usize, left)?;
    send(sheet, context, st, lo, r, a, receiver, port, left)
}

// An element's telegram to itself: its port is -1.
pub fn internal_send(
    sheet: &Reader,
    context: &Frame,
    st: &mut [i32],
    lo: &Locals,
    n: usize,
    r: Record,
    left: u32,
) -> Result<u32, Stop>
    requires { Visit sheet.now.sheet.now context.now st.old lo.now n r internal_send }
    ensures { (depth : ℕ) → world (ran_of result) st.new lo.now ≡ run_of sheet.now.sheet.now depth (context_at sheet.now.sheet.now context.now) n (suc left) st.old lo.now }
{
    let Some(a) = sheet.record(NAMES, r.f3 as usize) else {
        return Err(Stop::Stuck);
    };
    let element = context[ELEMENT] as i32;
    send(sheet, context, st, lo, r, a, element, -1, left)
}
