// The refusals of the product: why a call was rejected, and which cell and side it names.
#![tactic(auto)]

ghost use Rattle.std.specs.Prelude.{◌≡◌, Some};
ghost use Rattle.refusals.specs.Refusals.{line, text, side_number, side_of};
ghost use Rattle.refusals.specs.declared.Refusal.TheVariants.{OutOfMemory};

use std::alloc::{AllocError, AllocFailed};
use std::fmt;

// The side on which a cell is tried: above its true figure, or below it.
#[derive(Clone, Copy, Debug, PartialEq, Eq)]
pub enum Side {
    Up,
    Down,
}

// 1 is up, and any other number counts as down.
impl From<usize> for Side {
    ghost from_gives = { λ n s. s ≡ side_of n };

    fn from(number: usize) -> Side {
        if number == 1 { Side::Up } else { Side::Down }
    }
}

impl From<Side> for usize {
    ghost from_gives = { λ s n. n ≡ side_number s };

    fn from(side: Side) -> usize {
        match side {
            Side::Up => 1,
            Side::Down => 2,
        }
    }
}

#[derive(Clone, Copy, Debug, PartialEq, Eq)]
pub enum Refusal {
    // a layout's size is outside its range
    LayoutSize,
    // P, N or K of a rule is outside its range
    RuleRange,
    // a layout has over 512 cells or over 128 relations
    LayoutTooLarge,
    // the number is no cell of the layout
    UnknownCell { cell: usize },
    // a total stands where a leaf is needed
    NotALeaf { cell: usize },
    // a withhold list names a cell that is printed already
    AlreadyPrinted { cell: usize },
    // a witness was asked for a cell that is not sensitive
    NotSensitive { cell: usize },
    // an amount is above 1,000,000,000; a rule by itself knows no cell, and names 0
    AmountTooLarge { cell: usize },
    // more than 2,048 contributions
    TooManyContributions,
    // a withhold list has over 512 entries, or the memory for a page or a table is too short
    MemorySize,
    // the cell is exposed on that side
    Exposed { cell: usize, side: Side },
    // a deposit's length is not what its counts say
    DepositLength,
    // a deposit's cell count is not the layout's
    DepositCells,
    // a link of the cell's chain is above the record count
    LinkTooLarge { cell: usize },
    // a record of the cell's chain was reached before
    RecordReached { cell: usize },
    // some record of a deposit is in no chain
    RecordUnreached,
    // the settings line breaks its form
    SettingsForm,
    // want of memory
    OutOfMemory,
}

impl Refusal {
    pub fn number(self) -> usize
        ensures { result ≡ (line self).number }
    {
        match self {
            Refusal::LayoutSize => 1,
            Refusal::RuleRange => 2,
            Refusal::LayoutTooLarge => 3,
            Refusal::UnknownCell { cell: _ } => 4,
            Refusal::NotALeaf { cell: _ } => 5,
            Refusal::AlreadyPrinted { cell: _ } => 6,
            Refusal::NotSensitive { cell: _ } => 7,
            Refusal::AmountTooLarge { cell: _ } => 8,
            Refusal::TooManyContributions => 9,
            Refusal::MemorySize => 10,
            Refusal::Exposed { cell: _, side: _ } => 11,
            Refusal::DepositLength => 12,
            Refusal::DepositCells => 13,
            Refusal::LinkTooLarge { cell: _ } => 14,
            Refusal::RecordReached { cell: _ } => 15,
            Refusal::RecordUnreached => 16,
            Refusal::SettingsForm => 17,
            Refusal::OutOfMemory => 99,
        }
    }

    // The cell that is named.
    pub fn cell(self) -> Option<usize>
        ensures { result ≡ (line self).cell }
    {
        match self {
            Refusal::UnknownCell { cell }
            | Refusal::NotALeaf { cell }
            | Refusal::AlreadyPrinted { cell }
            | Refusal::NotSensitive { cell }
            | Refusal::AmountTooLarge { cell }
            | Refusal::Exposed { cell, side: _ }
            | Refusal::LinkTooLarge { cell }
            | Refusal::RecordReached { cell } => Some(cell),
            _ => None,
        }
    }

    // The side that is named.
    pub fn side(self) -> Option<Side>
        ensures { result ≡ (line self).side }
    {
        match self {
            Refusal::Exposed { cell: _, side } => Some(side),
            _ => None,
        }
    }
}

// The line that a program writes for a refusal.
impl fmt::Display for Refusal {
    ghost output = { λ r. Some (text r) };

    fn fmt<W: fmt::Write>(&self, f: &mut fmt::Formatter<W>) -> fmt::Result {
        let number = self.number();
        let cell = self.cell().unwrap_or(0);
        let side = self.side().map_or(0, usize::from);
        write!(f, "refused {number} cell {cell} side {side}")
    }
}

impl From<AllocError> for Refusal {
    ghost from_gives = { λ _ r. r ≡ OutOfMemory };

    fn from(_e: AllocError) -> Refusal {
        Refusal::OutOfMemory
    }
}

impl<T: Drop> From<AllocFailed<T>> for Refusal {
    ghost from_gives = { λ _ r. r ≡ OutOfMemory };

    fn from(_e: AllocFailed<T>) -> Refusal {
        Refusal::OutOfMemory
    }
}
