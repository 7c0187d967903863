// Operators on words.
#![tactic(auto)]

ghost use Rattle.std.specs.Prelude.{◌≡◌, not, false, ◌+ℤ◌, ◌-ℤ◌, ◌*ℤ◌};
ghost use Rattle.std.specs.Int.Signed.{lt_z};
ghost use Rattle.sheet.specs.All.{◌and◌};
ghost use Rattle.machine.specs.Values.{is_zero, same_word};
ghost use Rattle.machine_division.specs.Division.{quotient, remainder};
ghost use Rattle.machine.specs.Eval.{bool_word, is_one, int_out, dividing};
ghost use Rattle.engine_ints.specs.Work.{work_of, binary_work, not_work};

// Why an expression or a statement gives nothing: a refusal with its number and the steps left, or stuck.
#[derive(Clone, Copy)]
pub enum Stop {
    Refused { number: u8, left: u32 },
    Stuck,
}

// What an expression gives: a word and the steps left.
pub type Work = Result<(i32, u32), Stop>;

// The word of a Bool.
pub fn bool_word(b: bool) -> i32
    ensures { result ≡ bool_word b }
{
    b as i32
}

fn both(a: i32, b: i32) -> i32
    ensures { result ≡ bool_word (is_one a and is_one b) }
{
    if a == 0 {
        return 0;
    }
    bool_word(b != 0)
}

fn same(a: i32, b: i32) -> i32
    ensures { result ≡ bool_word (same_word a b) }
{
    bool_word(a == b)
}

fn less(a: i32, b: i32) -> i32
    ensures { result ≡ bool_word (lt_z a b) }
{
    bool_word(a < b)
}

// "Int outside 32 bits" is 6.
fn fit(z: i64, left: u32) -> Work
    ensures { result ≡ work_of (int_out z left) }
{
    if z < -2147483648 {
        return Err(Stop::Refused { number: 6, left });
    }
    if 2147483647 < z {
        return Err(Stop::Refused { number: 6, left });
    }
    Ok((z as i32, left))
}

fn plus(a: i32, b: i32, left: u32) -> Work
    ensures { result ≡ work_of (int_out (a +ℤ b) left) }
{
    fit(a as i64 + b as i64, left)
}

fn minus(a: i32, b: i32, left: u32) -> Work
    ensures { result ≡ work_of (int_out (a -ℤ b) left) }
{
    fit(a as i64 - b as i64, left)
}

fn times(a: i32, b: i32, left: u32) -> Work
    ensures { result ≡ work_of (int_out (a *ℤ b) left) }
{
    fit(a as i64 * b as i64, left)
}

// "div rounds toward minus infinity". The language rounds toward zero: its quotient is one too high where what is left has the other sign
// than the divisor. A product below 0 tells that, also that something is left, and no branch is taken on it.
fn floored(a: i32, b: i32) -> i64
    requires { is_zero b ≡ false }
    ensures { result ≡ quotient a b }
{
    let x = a as i64;
    let y = b as i64;
    let q = x / y;
    let r = x - y * q;
    q - bool_word(r * y < 0) as i64
}

// "Divisor 0" is 6; so is the least Int by -1.
fn div(a: i32, b: i32, left: u32) -> Work
    ensures { result ≡ work_of (dividing b (quotient a b) left) }
{
    if b == 0 {
        return Err(Stop::Refused { number: 6, left });
    }
    fit(floored(a, b), left)
}

// "a mod b = a − b × (a div b), of which only the result must fit", and it does: it lies between 0 and b.
fn modulo(a: i32, b: i32, left: u32) -> Work
    ensures { result ≡ work_of (dividing b (remainder a b) left) }
{
    let x = a as i64;
    let y = b as i64;
    if y == 0 {
        return Err(Stop::Refused { number: 6, left });
    }
    let p = y * floored(a, b);
    let r = x - p;
    Ok((r as i32, left))
}

// 9 and; 10 equal; 11 less; 12 plus; 13 minus; 14 times; 15 div; 16 mod.
pub fn binary(op: u16, a: i32, b: i32, left: u32) -> Work
    ensures { result ≡ binary_work op a b left }
{
    match op {
        9 => Ok((both(a, b), left)),
        10 => Ok((same(a, b), left)),
        11 => Ok((less(a, b), left)),
        12 => plus(a, b, left),
        13 => minus(a, b, left),
        14 => times(a, b, left),
        15 => div(a, b, left),
        _ => modulo(a, b, left),
    }
}

// 8 not.
pub fn not(z: i32, left: u32) -> Work
    ensures { result ≡ not_work z left }
{
    Ok((bool_word(z == 0), left))
}
