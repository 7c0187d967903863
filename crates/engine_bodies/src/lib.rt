// Runs a body of an element, for start and for events.
#![tactic(auto)]

ghost use Rattle.std.specs.Prelude.{◌≡◌, length};
ghost use Rattle.sheet.specs.Names.{bodies};
ghost use Rattle.sheet.specs.Sheet.{record_of};
ghost use Rattle.machine.specs.Play.{ended, limit_of, ran_body, body_event};
ghost use Rattle.engine_ints.specs.Work.{ran_of};
ghost use Rattle.engine_bodies.specs.Bodies.{ToRun};

use engine_cells::{FIRST_RECORD, ROW, Yard};
use engine_ints::Stop;
use machine::{Answer, Data};
use sheet::{BODIES, HEAD, Record};

// Body number of section 5 runs for element e, whose chart c is number n, with data for its parameters.
pub fn run_body(
    yard: &Yard,
    st: &mut [i32],
    e: usize,
    n: usize,
    c: Record,
    number: usize,
    d: &Data,
    limit: u32,
) -> Result<u32, Stop>
    requires { ToRun yard.now.sheet.sheet.now st.old e n c number d.now × (limit ≡ limit_of yard.now.sheet.sheet.now) }
    ensures { (ran_of result ≡ (ran_body yard.now.sheet.sheet.now (limit_of yard.now.sheet.sheet.now) e (record_of yard.now.sheet.sheet.now bodies number) d.now st.old).ran) × (st.new ≡ (ran_body yard.now.sheet.sheet.now (limit_of yard.now.sheet.sheet.now) e (record_of yard.now.sheet.sheet.now bodies number) d.now st.old).st) }
{
    let i = e - sheet_fields::field_at(&yard.sheet, HEAD, 0, 1);
    let k = yard.cells[ROW * i + FIRST_RECORD];
    let Some(body) = yard.sheet.record(BODIES, number) else {
        prove!(false);
        return Err(Stop::Stuck);
    };
    let context = engine_context::context(
        &yard.cells,
        e,
        i,
        k,
        n,
        c.f4 as usize,
        number,
        c.f3 as usize,
    );
    let mut locals = engine_defaults::fresh_locals(&yard.sheet, body, d);
    engine_statements::run(
        &yard.sheet,
        &context,
        st,
        &mut locals,
        0,
        body.f7 as usize,
        limit,
    )
}

// An event's answer where a body runs for it: the steps are those used, and what is refused is undone.
pub fn event_body(
    yard: &Yard,
    old: &[i32],
    st: &mut [i32],
    e: usize,
    n: usize,
    c: Record,
    number: usize,
    d: &Data,
) -> Answer
    requires { ToRun yard.now.sheet.sheet.now st.old e n c number d.now × (length old.now ≡ length st.old) }
    ensures { ended result st.new ≡ body_event yard.now.sheet.sheet.now (limit_of yard.now.sheet.sheet.now) old.now e (record_of yard.now.sheet.sheet.now bodies number) d.now st.old }
{
    let limit = engine_limit::limit(&yard.sheet);
    match run_body(yard, st, e, n, c, number, d, limit) {
        Ok(left) => engine_answering::answer(old, st, 0, limit - left),
        Err(Stop::Refused { number, left }) => engine_answering::answer(
            old,
            st,
            number,
            limit - left,
        ),
        Err(Stop::Stuck) => unreachable!(),
    }
}
