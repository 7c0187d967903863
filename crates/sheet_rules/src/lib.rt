// The types that the definitions in specs/ speak of. There is no code here.
#![tactic(auto)]

// What a node is by the static rules: an expression of a type, a statement, or neither. An enum of three cases, as the
// paper tells them apart, and no option of an option.
#[derive(Clone, Copy)]
pub enum Typed {
    Expression(usize),
    Statement,
    Wrong,
}

// What check answers: passed, a fault of shape, a broken static rule. An enum of three cases, which the paper numbers
// 0, 1 and 2: every theorem about passed sheets names the first.
#[derive(Clone, Copy)]
pub enum Checked {
    Passed,
    Shape,
    Static,
}

// Where a node's operands stand: `count` fields side by side from number `first`, then `tail`
// data fields from f4 on.
#[derive(Clone, Copy)]
pub struct Operands {
    pub first: usize,
    pub count: usize,
    pub tail: usize,
}
