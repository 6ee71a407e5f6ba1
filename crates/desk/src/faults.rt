// Why the desk closes before it has told all.
use refusals::Refusal;
use std::alloc::AllocError;
use std::io;
use thiserror::Error;

// The message is the line that is written on standard output.
#[derive(Debug, Drop, Error)]
pub enum Fault {
    // the settings, the layout, the rule or a contribution is refused
    #[error(transparent)]
    Refused(#[from] Refusal),
    // the line of that number says nothing known
    #[error("line {0} is neither a contribution nor an act")]
    UnknownLine(usize),
    #[error(transparent)]
    Io(#[from] io::Error),
    #[error(transparent)]
    Memory(#[from(alloc)] AllocError),
}
