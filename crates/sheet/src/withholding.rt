// Withholding a list of cells.
ghost use Rattle.std.specs.Prelude.{◌≡◌, false, is_ok};
ghost use Rattle.runs.specs.Acts.{withhold};
ghost use Rattle.sheet.specs.Calls.{answered, counted, refusal_of, withhold_answer};
ghost use Rattle.sheet.specs.Sheets.{Acted, listing};

use crate::events::Event;
use crate::held::Sheet;
use layouts::memory::Mark;
use refusals::Refusal;
use sums::is_among;

// the longest list
const ENTRIES: usize = 512;

// What the list is to the cell.
fn event_of(cells: &[usize], cell: usize) -> Event
    ensures { result ≡ listing cells.now cell }
{
    if is_among(cell, cells) {
        Event::Listed
    } else {
        Event::Unlisted
    }
}

impl Sheet {
    // Whether the list can be withheld, entry by entry.
    fn check_entries(&self, cells: &[usize]) -> Result<(), Refusal>
        ensures { result ≡ answered (refusal_of self.now (withhold cells.now)) tt }
    {
        if cells.len() > ENTRIES {
            return Err(Refusal::MemorySize);
        }
        for cell in cells {
            if *cell >= self.cells() {
                return Err(Refusal::UnknownCell { cell: *cell });
            }
            if self.row(*cell).mark == Mark::Printed {
                return Err(Refusal::AlreadyPrinted { cell: *cell });
            }
        }
        Ok(())
    }

    // Makes complements of exactly the listed cells that are not sensitive, and answers how many they are. The whole list is checked
    // before any mark moves.
    pub fn withhold(&mut self, cells: &[usize]) -> Result<usize, Refusal>
        ensures answer { result ≡ withhold_answer self.old cells.now }
        ensures acted { Acted self.old (withhold cells.now) (counted result) self.new }
        ensures unchanged { is_ok result ≡ false → self.new ≡ self.old }
    {
        self.check_entries(cells)?;
        self.meet_all(|cell| event_of(cells, cell));
        Ok(self.complements())
    }
}
