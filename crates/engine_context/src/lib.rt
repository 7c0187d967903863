// Where a body runs, as a row of numbers, and where its element's variables lie in the state.
#![tactic(auto)]

ghost use Rattle.std.specs.Prelude.{◌≡◌, ℕ, ◌+◌, ◌*◌, ◌<◌, ◌≤◌, length, get_or};
ghost use Rattle.machine.specs.State.{cell_at};
ghost use Rattle.engine_store.specs.Layout.{longest};
ghost use Rattle.engine_context.specs.Context.{element_in, binding_in, chart_in, first_body_in, body_in, cell_in, Spans, leads_to};

use engine_cells::{CellLayout, ROW};

pub const ELEMENT: usize = 0;

// The numbers of the records in sections 7 and 4: the element's first binding record and its chart.
pub const BINDING: usize = 1;

pub const CHART: usize = 2;

// The number in section 5 of the chart's first body.
pub const FIRST_BODY: usize = 3;

// The number of the body that runs: only contracts ask for it.
pub const BODY: usize = 4;

// From here on the first cell of each of the chart's variables, and the cell behind the last of them.
pub const CELLS: usize = 5;

// The numbers of a running body: those above, then "up to 32" variables' first cells and the one behind.
pub const FRAME: usize = 38;

pub type Frame = [usize; FRAME];

// A body's parameters and locals: "at most 16" together.
pub const LOCALS: usize = 16;

pub type Locals = [i32; LOCALS];

// The numbers of a running body of element e, bound by record k. Its row of the table of cells, number i,
// is taken along.
pub fn context(
    cells: &CellLayout,
    e: usize,
    i: usize,
    k: usize,
    chart: usize,
    first: usize,
    body: usize,
    count: usize,
) -> Frame
    requires { (i < 64) × (count ≤ 32) }
    ensures { (length result ≡ 38) × (element_in result ≡ e) × (binding_in result ≡ k) × (chart_in result ≡ chart) × (first_body_in result ≡ first) × (body_in result ≡ body) × ((n : ℕ) → n ≤ count → cell_in result n ≡ get_or cells.now (34 * i + n) 0) }
{
    let mut w = [0usize; FRAME];
    w[ELEMENT] = e;
    w[BINDING] = k;
    w[CHART] = chart;
    w[FIRST_BODY] = first;
    w[BODY] = body;
    let row = ROW * i;
    w[CELLS..CELLS + count + 1].copy_from_slice(&cells[row..row + count + 1]);
    w
}

// The numbers of a body that another one of the same element calls.
pub fn inner(context: &Frame, body: usize) -> Frame
    requires { length context.now ≡ 38 }
    ensures { (length result ≡ 38) × (body_in result ≡ body) × ((n : ℕ) → (n ≡ 4 → ⊥) → get_or result n 0 ≡ get_or context.now n 0) }
{
    let mut own = *context;
    own[BODY] = body;
    own
}

// The first word of plain variable n.
pub fn first_word(context: &Frame, n: usize) -> usize
    requires { (length context.now ≡ 38) × (n < 32) × (cell_at (cell_in context.now n) < longest) }
    ensures { result ≡ cell_at (cell_in context.now n) }
{
    engine_store::cell_at(context[CELLS + n])
}

// The word of array n at index i. Its cells end where the next variable's begin, whatever the kind of
// its index.
pub fn element_word(context: &Frame, n: usize, i: i32) -> Option<usize>
    requires { Spans context.now n }
    ensures { result ≡ leads_to context.now n i }
{
    let first = context[CELLS + n];
    let count = context[CELLS + (n + 1)] - first;
    if !engine_valid_words::is_below(i, count) {
        return None;
    }
    let k = engine_valid_words::number(i);
    Some(engine_store::cell_at(first + k))
}
