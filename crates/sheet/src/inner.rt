// What the acts on a sheet are made of.
ghost use Rattle.std.specs.Prelude.{◌≡◌, ◌<◌, slice_set};
ghost use Rattle.sheet.specs.Cells.{row_at};
ghost use Rattle.sheet.specs.Events.{met};
ghost use Rattle.runs.specs.Acts.{complements};
ghost use Rattle.sheet.specs.Sheets.{Met, figures_of, rows_of, stands};

use crate::events::Event;
use crate::held::Sheet;
use layouts::memory::{Mark, Row};

impl Sheet {
    pub(crate) fn cells(&self) -> usize
        ensures { result ≡ (figures_of self.now).shape.cells }
    {
        self.network.edges.len()
    }

    pub(crate) fn row(&self, cell: usize) -> Row
        requires { cell < (figures_of self.now).shape.cells }
        ensures { result ≡ row_at (rows_of self.now) cell }
    {
        self.table.look(cell)
    }

    // How many cells are complements.
    pub(crate) fn complements(&self) -> usize
        ensures { result ≡ complements (figures_of self.now) (stands self.now) }
    {
        self.table
            .rows
            .iter()
            .filter(|row| row.mark == Mark::Complement)
            .count()
    }

    // A cell meets an event.
    pub(crate) fn meet(&mut self, cell: usize, event: Event)
        requires { cell < (figures_of self.old).shape.cells }
        ensures network { self.new.network ≡ self.old.network }
        ensures bench { self.new.bench ≡ self.old.bench }
        ensures rows { rows_of self.new ≡ slice_set (rows_of self.old) cell (met (row_at (rows_of self.old) cell) event) }
    {
        self.table.meet(cell, event);
    }

    // Each cell meets the event that is given for it.
    pub(crate) fn meet_all<F: Fn(usize) -> Event>(&mut self, event_at: F)
        requires { F.IsAlwaysCallable event_at }
        ensures { Met self.old (F.post event_at) self.new }
    {
        for cell in 0..self.cells() {
            self.meet(cell, event_at(cell));
        }
    }
}
