// The acts of an office and what each delivers, as a caller hands them over and gets it back.
use layouts::admission::MOST_CELLS;
use page::LINE;
use refusals::Refusal;

// The page of an admitted layout is no longer.
pub const LONGEST_PAGE: usize = LINE * MOST_CELLS;

// Memory is counted in bytes for a print, and in figures for a witness. A witness asks for side 1, up, or for side 2, down; the side
// is a number as a caller may hand over any, and all but 1 count as down.
#[derive(Drop)]
pub enum Act {
    Withhold(Vec<usize>),
    Search,
    Print {
        memory: usize,
    },
    Witness {
        cell: usize,
        side: usize,
        memory: usize,
    },
}

// What an act delivers that is not refused: a withhold or a search a count, a print a page, and a witness a table.
#[derive(Drop)]
pub enum Answer {
    Count(usize),
    Page(Vec<u8>),
    Table(Vec<u64>),
}

// What comes of an act.
pub type Outcome = Result<Answer, Refusal>;
