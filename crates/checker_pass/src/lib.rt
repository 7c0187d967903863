// What the test tells that each node is used exactly once. There is no code here.
#![tactic(auto)]

// Why no node is marked: fewer marks are lent than the sheet has nodes.
#[derive(Clone, Copy)]
pub enum Unmarked {
    TooFew,
}

// Whether each node is used exactly once, and how many records the test went over: both are told in any case.
#[derive(Clone, Copy)]
pub struct Tested {
    pub once: bool,
    pub records: usize,
}
