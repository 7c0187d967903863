// Start on a passed sheet: the default state, then the initial bodies.
#![tactic(auto)]

ghost use Rattle.std.specs.Prelude.{true, [], ◌≡◌, pos, length, replicate, None};
ghost use Rattle.machine.specs.Values.{is_bound};
ghost use Rattle.machine.specs.Play.{ended, answer, limit_of, is_initial, element_body, alone, ran_body, started};
ghost use Rattle.engine_ints.specs.Work.{ran_of};
ghost use Rattle.machine.specs.Valid.{OfSheet};
ghost use Rattle.machine.specs.State.{state_length};

use engine_answering::answered;
use engine_cells::Yard;
use engine_ints::Stop;
use machine::{Answer, DATA};
use sheet::CHARTS;

// The initial body of element e.
fn initial(yard: &Yard, st: &mut [i32], e: usize, limit: u32) -> Result<u32, Stop>
    requires { OfSheet yard.now.sheet.sheet.now st.old × (is_bound yard.now.sheet.sheet.now e ≡ true) × (limit ≡ limit_of yard.now.sheet.sheet.now) }
    ensures { (ran_of result ≡ (ran_body yard.now.sheet.sheet.now (limit_of yard.now.sheet.sheet.now) e (alone (element_body yard.now.sheet.sheet.now e is_initial)) [] st.old).ran) × (st.new ≡ (ran_body yard.now.sheet.sheet.now (limit_of yard.now.sheet.sheet.now) e (alone (element_body yard.now.sheet.sheet.now e is_initial)) [] st.old).st) }
{
    let n = yard.chart_number(e);
    let Some(c) = yard.sheet.record(CHARTS, n) else {
        prove!(false);
        return Err(Stop::Stuck);
    };
    let j = engine_finders::with_role(&yard.sheet, c, 0);
    let none = [0i32; DATA];
    engine_bodies::run_body(yard, st, e, n, c, c.f4 as usize + j, &none, limit)
}

// "after 6 to 10 its state is all zeros", and after 11 and 12
fn refused(st: &mut [i32], number: u8, steps: u32) -> Answer
    ensures { (result ≡ answer number steps None) × (st.new ≡ replicate (length st.old) (pos 0)) }
{
    engine_copies::zero(st);
    answered(number, steps)
}

// "all defaults, nothing waiting, then the initial bodies in element order"
pub fn from_defaults(yard: &Yard, st: &mut [i32]) -> Answer
    requires { length st.old ≡ state_length yard.now.sheet.sheet.now }
    ensures { ended result st.new ≡ started yard.now.sheet.sheet.now (limit_of yard.now.sheet.sheet.now) }
{
    engine_defaults::default_state(&yard.sheet, st);
    let first = engine_valid_values::externals(&yard.sheet);
    let count = yard.elements();
    let most = engine_limit::limit(&yard.sheet);
    let mut steps: u32 = 0;
    for i in 0..count {
        match initial(yard, st, first + i, most) {
            Ok(left) => {
                steps += most - left;
            }
            Err(Stop::Refused { number, left }) => {
                return refused(st, number, steps + (most - left));
            }
            Err(Stop::Stuck) => unreachable!(),
        }
    }
    answered(0, steps)
}
