// All memory that an intake and its sheet ever need.

// What a company sold under a leaf.
#[derive(Clone, Copy, Debug, PartialEq, Eq)]
pub struct Contribution {
    pub leaf: usize,
    pub company: u32,
    pub amount: u64,
}

// A contribution as it is kept, with the place of the record before it in the chain of its leaf: one of 2,048, so that 32 bits hold it.
#[derive(Clone, Copy)]
pub struct Record {
    pub contribution: Contribution,
    pub next: Option<u32>,
}

// How a cell stands: barred only while it is tried.
#[derive(Clone, Copy, Debug, PartialEq, Eq)]
pub enum Mark {
    Open,
    Sensitive,
    Complement,
    Printed,
    Barred,
}

#[derive(Clone, Copy)]
pub struct Row {
    pub figure: u64,
    pub need: u64,
    pub mark: Mark,
}

// How a trial takes a cell: as shown, as withheld, or, while it is the one tried, as barred.
#[derive(Clone, Copy, Debug, PartialEq, Eq)]
pub enum Cover {
    Shown,
    Withheld,
    Barred,
}

// How a search came to a relation: in which place of its order, and by which cell.
#[derive(Clone, Copy)]
pub struct Reach {
    pub layer: usize,
    pub via: usize,
}

// The memory to try readings with: for each cell its cover and a figure, and for each relation how it was reached, if it was.
#[derive(Drop)]
pub struct Bench {
    pub covers: Vec<Cover>,
    pub table: Vec<u64>,
    pub reached: Vec<Option<Reach>>,
}

// The records, with the latest of each leaf's chain; what a loader has read and seen of a deposit; a row for each cell; and the
// memory of trials.
#[derive(Drop)]
pub struct Memory {
    pub records: Vec<Record>,
    pub heads: Vec<Option<u32>>,
    pub pending: Vec<Contribution>,
    pub seen: Vec<bool>,
    pub rows: Vec<Row>,
    pub bench: Bench,
}
