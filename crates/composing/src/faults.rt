// What can be wrong with a text that a deposit is to be made of.
ghost use Rattle.std.specs.Prelude.{◌≡◌, Some};
ghost use Rattle.composing.specs.Reading.{line_fault};
ghost use Rattle.composing.specs.Told.{told};
ghost use Rattle.composing.specs.declared.faults.Fault.TheVariants.{OutOfMemory};

use settings::numbers::NumberFault;
use std::alloc::{AllocError, AllocFailed};
use std::error::Error;
use std::fmt;

// The settings stand on line 1 and the contributions from line 2 on.
#[derive(Clone, Copy, Debug, PartialEq, Eq)]
pub enum Fault {
    // line 1 is no settings line
    Settings,
    // the line is not three numbers, one blank apart
    Form { line: usize },
    // a number of the line is above 4,294,967,295
    TooLarge { line: usize },
    // the leaf of the line is no cell of the layout
    UnknownLeaf { line: usize },
    // more contributions than 32 bits count
    TooMany,
    // want of memory
    OutOfMemory,
}

impl Fault {
    // What is wrong with the numbers of a line.
    pub(crate) fn on_line(line: usize, fault: NumberFault) -> Fault
        ensures { result ≡ line_fault line fault }
    {
        match fault {
            NumberFault::Form => Fault::Form { line },
            NumberFault::TooLarge => Fault::TooLarge { line },
        }
    }
}

impl fmt::Display for Fault {
    ghost output = { λ e. Some (told e) };

    fn fmt<W: fmt::Write>(&self, f: &mut fmt::Formatter<W>) -> fmt::Result {
        match self {
            Fault::Settings => write!(f, "line 1: not a settings line"),
            Fault::Form { line } => write!(f, "line {line}: not three numbers, one blank apart"),
            Fault::TooLarge { line } => write!(f, "line {line}: a number above 4294967295"),
            Fault::UnknownLeaf { line } => write!(f, "line {line}: no cell of the layout"),
            Fault::TooMany => write!(f, "more than 4294967295 contributions"),
            Fault::OutOfMemory => write!(f, "out of memory"),
        }
    }
}

impl Error for Fault {}

impl From<AllocError> for Fault {
    ghost from_gives = { λ _ r. r ≡ OutOfMemory };

    fn from(_e: AllocError) -> Fault {
        Fault::OutOfMemory
    }
}

impl<T: Drop> From<AllocFailed<T>> for Fault {
    ghost from_gives = { λ _ r. r ≡ OutOfMemory };

    fn from(_e: AllocFailed<T>) -> Fault {
        Fault::OutOfMemory
    }
}
