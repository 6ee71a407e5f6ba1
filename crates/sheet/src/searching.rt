// The search for complements.
ghost use Rattle.std.specs.Prelude.{◌≡◌, ◌<◌, slice_set};
ghost use Rattle.layouts.specs.declared.memory.Cover.TheVariants.{Shown};
ghost use Rattle.readings.specs.Tables.{CoverNeeds};
ghost use Rattle.runs.specs.Acts.{count, seek};
ghost use Rattle.sheet.specs.Calls.{search_answer};
ghost use Rattle.sheet.specs.Sheets.{Acted, figures_of};
ghost use Rattle.sheet.specs.Trying.{Tried};

use crate::events::Event;
use crate::held::Sheet;
use layouts::memory::{Cover, Mark};

impl Sheet {
    // Shows one open cell to a trial. If a sensitive cell is thereby exposed, it is covered again and becomes a complement; says
    // whether it does.
    fn try_open(&mut self, cell: usize) -> bool
        requires within { cell < (figures_of self.old).shape.cells }
        requires hidden { CoverNeeds (figures_of self.old) (slice_set self.old.bench.covers.items cell Shown) }
        ensures { Tried self.old cell result self.new }
    {
        self.set_cover(cell, Cover::Shown);
        if self.audit().is_none() {
            return false;
        }
        self.set_cover(cell, Cover::Withheld);
        self.meet(cell, Event::Added);
        true
    }

    // Withholds every open cell, and then goes from the highest number down and opens each of them again, if no sensitive cell is
    // thereby exposed. Answers how many stay withheld.
    pub fn search(&mut self) -> usize
        ensures answer { result ≡ search_answer self.old }
        ensures acted { Acted self.old seek (count result) self.new }
    {
        self.set_covers(Cover::Withheld);
        let mut added = 0;
        for cell in (0..self.cells()).rev() {
            if self.row(cell).mark == Mark::Open && self.try_open(cell) {
                added += 1;
            }
        }
        added
    }
}
