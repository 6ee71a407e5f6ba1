// Printing a page.
ghost use Rattle.std.specs.Prelude.{◌≡◌, ◌*◌, ◌≤◌, ◌++◌, length, drop};
ghost use Rattle.readings.specs.Exposure.{audit};
ghost use Rattle.runs.specs.Acts.{page_of, print, withheld};
ghost use Rattle.sheet.specs.Calls.{answered, page_left_by, paged, print_answer, refusal_of, shown_by};
ghost use Rattle.sheet.specs.Sheets.{Acted, figures_of, stands};
ghost use Rattle.sheet.specs.Trying.{SameTable};

use crate::events::Event;
use crate::held::Sheet;
use layouts::memory::{Cover, Mark, Row};
use page::{LINE, write_line};
use refusals::{Refusal, Side};

// What a page shows of a row.
fn shown(row: Row) -> Option<u64>
    ensures { result ≡ shown_by row.mark row.figure }
{
    match row.mark {
        Mark::Open | Mark::Printed => Some(row.figure),
        Mark::Sensitive | Mark::Complement | Mark::Barred => None,
    }
}

impl Sheet {
    // The lowest sensitive cell that is exposed as the sheet stands, up before down.
    fn exposed(&mut self) -> Option<(usize, Side)>
        ensures says { result ≡ audit (figures_of self.old) (withheld (figures_of self.old) (stands self.old)) }
        ensures same { SameTable self.old self.new }
    {
        self.set_covers(Cover::Shown);
        self.audit()
    }

    // Whether the page may go out.
    fn check_page(&mut self, memory: usize) -> Result<(), Refusal>
        ensures answer { result ≡ answered (refusal_of self.old (print memory)) tt }
        ensures same { SameTable self.old self.new }
    {
        if memory < LINE * self.cells() {
            return Err(Refusal::MemorySize);
        }
        match self.exposed() {
            Some((cell, side)) => Err(Refusal::Exposed { cell, side }),
            None => Ok(()),
        }
    }

    // Writes the page to the front of the memory. No line is refused, as there is room.
    fn write_lines(&self, memory: &mut [u8])
        requires { 19 * (figures_of self.now).shape.cells ≤ length memory.old }
        ensures { memory.new ≡ page_of (figures_of self.now) (stands self.now) ++ drop (19 * (figures_of self.now).shape.cells) memory.old }
    {
        for (cell, row) in self.table.rows.iter().enumerate() {
            let _ = write_line(memory, cell, shown(*row));
        }
    }

    // Writes the page of this standing to the front of the memory, if nobody is exposed by it, and answers how many bytes it has. Every
    // open cell is printed from then on.
    pub fn print(&mut self, memory: &mut [u8]) -> Result<usize, Refusal>
        ensures answer { result ≡ print_answer self.old (length memory.old) }
        ensures page { memory.new ≡ page_left_by self.old memory.old }
        ensures acted { Acted self.old (print (length memory.old)) (paged result memory.new) self.new }
    {
        self.check_page(memory.len())?;
        self.write_lines(memory);
        self.meet_all(|_| Event::PagePrinted);
        Ok(LINE * self.cells())
    }
}
