// Data worked out.
#![tactic(auto)]

ghost use Rattle.std.specs.Prelude.{◌≡◌, ◌≤◌};
ghost use Rattle.sheet.specs.Names.{data_of};
ghost use Rattle.engine_ready.specs.Ready.{Ready, HasData};
ghost use Rattle.engine_ready.specs.Words.{in_four};
ghost use Rattle.engine_data.specs.Data.{data_at};

use engine_context::{Frame, Locals};
use engine_ints::Stop;
use machine::{DATA, Data};
use sheet::{Range, Record};
use sheet_opened::Reader;

// The declarations of a name's data.
pub fn data_range(a: Record) -> Range
    ensures { result ≡ data_of a }
{
    Range {
        first: a.f0 as usize,
        count: a.f1 as usize,
    }
}

// The data of a node, for the declarations of a range, in four words, and the steps left.
pub fn gather(
    sheet: &Reader,
    context: &Frame,
    st: &[i32],
    lo: &Locals,
    r: Record,
    g: Range,
    left: u32,
) -> Result<(Data, u32), Stop>
    requires { Ready sheet.now.sheet.now context.now st.now lo.now × HasData sheet.now.sheet.now context.now st.now lo.now r g × (g.count ≤ 4) }
    ensures { result ≡ in_four (data_at sheet.now.sheet.now context.now st.now lo.now r g left) }
{
    let mut words = [0i32; DATA];
    let mut l = left;
    for j in 0..g.count {
        let n = sheet_fields::field(r, 4 + j);
        let (word, rest) = engine_expressions::eval(sheet, context, st, lo, n, l)?;
        words[j] = word;
        l = rest;
    }
    Ok((words, l))
}
