// Where things lie in a state, and a cell's words as the engine changes them.
#![tactic(auto)]

ghost use Rattle.std.specs.Prelude.{◌≡◌, [], ◌∷◌, ◌+◌, ◌-◌, ◌<◌, ◌≤◌, pos, length, set, replicate, get_or};
ghost use Rattle.sheet_rules.specs.Shape.{most_cells};
ghost use Rattle.machine.specs.State.{places, cell_at, put_words};
ghost use Rattle.engine_store.specs.Layout.{words_with, shortest, longest, place_in};

use machine::Data;

// How many telegrams can wait: "128 telegram places of 8 words".
pub const PLACES: usize = 128;

// The words of the longest state, which has 512 cells.
pub const LONGEST: usize = 5128;

// How many words a state with that many cells has: "8 head words ..; 8 words per variable ..; 128
// telegram places of 8 words".
pub fn state_length(cells: usize) -> usize
    requires { cells ≤ most_cells }
    ensures { result ≡ words_with cells }
{
    8 + 8 * cells + 8 * PLACES
}

// Where the cell numbered i begins.
pub fn cell_at(i: usize) -> usize
    requires { cell_at i ≤ longest }
    ensures { result ≡ cell_at i }
{
    8 + 8 * i
}

// Where the place numbered j begins in a state of so many words.
pub fn place_at(length: usize, j: usize) -> usize
    requires { (shortest ≤ length) × (j ≤ places) }
    ensures { result ≡ place_in length j }
{
    length - 8 * PLACES + 8 * j
}

// One word.
pub fn set_word(st: &mut [i32], at: usize, z: i32)
    requires { at < length st.old }
    ensures { st.new ≡ set st.old at z }
{
    st[at] = z;
}

// A clock's words.
pub fn put_clock(
    st: &mut [i32],
    at: usize,
    running: i32,
    value: i32,
    period: i32,
    name: i32,
    d: &Data,
)
    requires { at + 8 ≤ length st.old }
    ensures { st.new ≡ put_words st.old at (running ∷ value ∷ period ∷ name ∷ get_or d.now 0 (pos 0) ∷ get_or d.now 1 (pos 0) ∷ get_or d.now 2 (pos 0) ∷ get_or d.now 3 (pos 0) ∷ []) }
{
    engine_rows::put_words(
        st,
        at,
        [running, value, period, name, d[0], d[1], d[2], d[3]],
    );
}

// A cell's first word, the others 0, whatever stood there: a default, or a clock that starts or stops.
pub fn set_cell(st: &mut [i32], at: usize, z: i32)
    requires { at + 8 ≤ length st.old }
    ensures { st.new ≡ put_words st.old at (z ∷ replicate 7 (pos 0)) }
{
    engine_rows::put_words(st, at, [z, 0, 0, 0, 0, 0, 0, 0]);
}
