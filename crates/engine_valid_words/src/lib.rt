// Words of a state and of an event, and the tests that compare them.
#![tactic(auto)]

ghost use Rattle.std.specs.Prelude.{◌≡◌, true, ◌<◌, length, pos, nat_abs};
ghost use Rattle.std.specs.Int.Signed.{le_z, lt_z};
ghost use Rattle.machine.specs.Values.{fits32, is_below, is_zero, same_word};
ghost use Rattle.machine.specs.State.{word_of};

// A word: a number of 32 bits, like every one that the machine holds.
pub fn word(st: &[i32], i: usize) -> i32
    requires { i < length st.now }
    ensures { (result ≡ word_of st.now i) × (fits32 result ≡ true) }
{
    st[i]
}

// Each of the tests below ties a machine number's comparison to the definitions' test of whole numbers: written out,
// the tie would stand at every place that compares.

pub fn at_least(a: i32, b: i32) -> bool
    ensures { result ≡ le_z b a }
{
    b <= a
}

pub fn less(a: i32, b: i32) -> bool
    ensures { result ≡ lt_z a b }
{
    a < b
}

pub fn same(a: i32, b: i32) -> bool
    ensures { result ≡ same_word a b }
{
    a == b
}

fn is_zero(z: i32) -> bool
    ensures { result ≡ is_zero z }
{
    z == 0
}

// A word from 0 on as a number to count and to index with.
pub fn number(z: i32) -> usize
    requires { le_z (pos 0) z ≡ true }
    ensures { result ≡ nat_abs z }
{
    z as usize
}

pub fn is_below(z: i32, n: usize) -> bool
    ensures { result ≡ is_below z n }
{
    if z < 0 {
        return false;
    }
    number(z) < n
}

// ---- the same of the words of a list

pub fn zero_at(st: &[i32], i: usize) -> bool
    requires { i < length st.now }
    ensures { result ≡ is_zero (word_of st.now i) }
{
    is_zero(word(st, i))
}

pub fn below_at(st: &[i32], i: usize, n: usize) -> bool
    requires { i < length st.now }
    ensures { result ≡ is_below (word_of st.now i) n }
{
    is_below(word(st, i), n)
}

pub fn number_at(st: &[i32], i: usize) -> usize
    requires { (i < length st.now) × (le_z (pos 0) (word_of st.now i) ≡ true) }
    ensures { result ≡ nat_abs (word_of st.now i) }
{
    number(word(st, i))
}
