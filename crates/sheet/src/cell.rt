// The record of one cell, made from its row for as long as an event changes its mark.
ghost use Rattle.std.specs.Prelude.{◌≡◌, ◌≤◌, true};
ghost use Rattle.sheet.specs.Cells.{goes_with};

use layouts::memory::Mark;

// Its need is never above its figure, and never above 0 together with the mark open or printed.
#[derive(Drop)]
pub(crate) struct Cell {
    pub(crate) figure: u64,
    pub(crate) need: u64,
    pub(crate) mark: Mark,
    ghost within: { need ≤ figure },
    ghost tied: { goes_with need mark ≡ true },
}
