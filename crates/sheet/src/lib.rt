// The types that the definitions in specs/ speak of, and the paper's numbers by name. There is no code here.
#![tactic(auto)]

// The eight sections of a sheet, by the numbers that the paper gives them.
pub const HEAD: usize = 0;

pub const ENUMERATED_TYPES: usize = 1;

pub const DECLARATIONS: usize = 2;

pub const NAMES: usize = 3;

pub const CHARTS: usize = 4;

pub const BODIES: usize = 5;

pub const NODES: usize = 6;

pub const BINDINGS: usize = 7;

// How many numbers a directory has: an offset and a count for each section.
pub const DIRECTORY: usize = 16;

pub type Directory = [usize; DIRECTORY];

// More records than a sheet has: it has at most 65,536 bytes, of which a record takes 16.
pub const RECORDS: usize = 4096;

// A number for each record of a section.
pub type ByRecord = [u16; RECORDS];

// A record of the sheet: eight 16-bit fields.
#[derive(Clone, Copy, Default)]
pub struct Record {
    pub f0: u16,
    pub f1: u16,
    pub f2: u16,
    pub f3: u16,
    pub f4: u16,
    pub f5: u16,
    pub f6: u16,
    pub f7: u16,
}

// A range of records: its first one and how many.
#[derive(Clone, Copy)]
pub struct Range {
    pub first: usize,
    pub count: usize,
}
