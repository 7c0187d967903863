// The types that the definitions in specs/ speak of. There is no code here.
#![tactic(auto)]

// "An event is nine words: kind, s, r, p, n, four data."
pub const EVENT_WORDS: usize = 9;

// An answer in words: number, steps, dropped, 1 or 0 for a telegram handed outside, and its receiver,
// port, name and four data.
pub const ANSWER_WORDS: usize = 11;

// The four data of a telegram or a clock.
pub const DATA: usize = 4;

pub type Data = [i32; DATA];

// A telegram as it lies in a state: port -1 if it is internal, data that its name has not are 0.
#[derive(Clone, Copy)]
pub struct Telegram {
    pub sender: i32,
    pub receiver: i32,
    pub port: i32,
    pub name: i32,
    pub d0: i32,
    pub d1: i32,
    pub d2: i32,
    pub d3: i32,
}

// A value with its type.
#[derive(Clone, Copy)]
pub struct Value {
    pub kind: usize,
    pub word: i32,
}

// What an expression gives: a value and the steps left, a refusal with its number, or stuck. The definitions speak of
// it; code gives a Result.
#[derive(Clone, Copy)]
pub enum Out {
    Val { value: Value, left: u32 },
    Refused { number: u8, left: u32 },
    Stuck,
}

// How a statement ends: done, refused with its number, or stuck. The definitions speak of it; code gives a Result.
#[derive(Clone, Copy)]
pub enum Ran {
    Done { left: u32 },
    Refused { number: u8, left: u32 },
    Stuck,
}

// What start and event answer: the paper's number, the steps used, how many waiting telegrams were
// dropped, and what is handed outside. A refusal's number stays the paper's, here and where it comes from: runs and
// lists store it, and an enum beside it would be a second name for each.
#[derive(Clone, Copy)]
pub struct Answer {
    pub number: u8,
    pub steps: u32,
    pub dropped: u8,
    pub handed: Option<Telegram>,
}
