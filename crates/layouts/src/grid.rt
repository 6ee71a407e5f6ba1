// A grid of rows and columns, with a total for each of them and for all.
ghost use Rattle.std.specs.Prelude.{◌≡◌, ◌≤◌, true, false, MatchResult};
ghost use Rattle.refusals.specs.declared.Refusal.TheVariants.{LayoutSize};
ghost use Rattle.layouts.specs.Layouts.{grid, grid_size};
ghost use Rattle.layouts.specs.Places.{place_of};
ghost use Rattle.layouts.specs.Gridded.{grid_laws};

use crate::{Kind, Layout};
use refusals::Refusal;
use sums::is_among;

#[derive(Clone, Copy)]
pub struct Grid {
    rows: usize,
    columns: usize,
    ghost sized: { (1 ≤ rows) × (rows ≤ 31) × (1 ≤ columns) × (columns ≤ 31) },
}

// Where a cell stands: inside, by its row and column, or as a total.
#[derive(Clone, Copy)]
enum Place {
    Inside(usize, usize),
    RowTotal(usize),
    ColumnTotal(usize),
    GrandTotal,
}

impl Grid {
    pub fn new(rows: usize, columns: usize) -> Result<Grid, Refusal>
        ensures { MatchResult result (λ g. (g.rows ≡ rows) × (g.columns ≡ columns) × (grid_size rows columns ≡ true)) (λ e. (e ≡ LayoutSize) × (grid_size rows columns ≡ false)) }
    {
        if !(1..=31).contains(&rows) || !(1..=31).contains(&columns) {
            return Err(Refusal::LayoutSize);
        }
        Ok(Grid { rows, columns })
    }

    fn place(&self, cell: usize) -> Option<Place>
        ensures { result ≡ place_of self.now.rows self.now.columns cell }
    {
        let width = self.columns + 1;
        if cell >= (self.rows + 1) * width {
            return None;
        }
        let row = cell / width;
        let column = cell % width;
        Some(match (row < self.rows, column < self.columns) {
            (true, true) => Place::Inside(row, column),
            (true, false) => Place::RowTotal(row),
            (false, true) => Place::ColumnTotal(column),
            (false, false) => Place::GrandTotal,
        })
    }
}

impl Layout for Grid {
    ghost shape = { λ g. grid g.rows g.columns };

    ghost lawful = { λ x. grid_laws x.rows x.columns };

    fn cells(&self) -> usize {
        (self.rows + 1) * (self.columns + 1)
    }

    fn relations(&self) -> usize {
        self.rows + self.columns + 2
    }

    fn kind(&self, cell: usize) -> Option<Kind> {
        match self.place(cell)? {
            Place::Inside(_, _) => Some(Kind::Leaf),
            _ => Some(Kind::Total),
        }
    }

    fn leaves(&self, cell: usize) -> Option<usize> {
        match self.place(cell)? {
            Place::Inside(row, _) => Some(row),
            Place::RowTotal(_) => Some(self.rows + self.columns),
            Place::ColumnTotal(column) => Some(self.rows + column),
            Place::GrandTotal => Some(self.rows + self.columns + 1),
        }
    }

    fn enters(&self, cell: usize) -> Option<usize> {
        match self.place(cell)? {
            Place::Inside(_, column) => Some(self.rows + column),
            Place::RowTotal(row) => Some(row),
            Place::ColumnTotal(_) => Some(self.rows + self.columns + 1),
            Place::GrandTotal => Some(self.rows + self.columns),
        }
    }

    fn counts(&self, cell: usize, leaf: usize) -> Option<bool> {
        if cell >= self.cells() {
            return None;
        }
        let Place::Inside(row, column) = self.place(leaf)? else {
            return None;
        };
        let width = self.columns + 1;
        let foot = self.rows * width;
        let above = [
            leaf,
            row * width + self.columns,
            foot + column,
            foot + self.columns,
        ];
        Some(is_among(cell, &above))
    }
}
