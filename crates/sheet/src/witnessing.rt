// Witnesses for sensitive cells.
ghost use Rattle.std.specs.Prelude.{◌≡◌, false, length, drop, is_ok};
ghost use Rattle.runs.specs.Acts.{witness};
ghost use Rattle.sheet.specs.Calls.{tabled, witness_answer};
ghost use Rattle.sheet.specs.Sheets.{Acted, figures_of};

use crate::held::Sheet;
use layouts::memory::Cover;
use readings::trials::Trials;
use refusals::{Refusal, Side};

impl Sheet {
    // Writes a reading to the front of the memory that has the cell's figure and need together there, or more, for side 1, and the figure
    // less the need, or less, for any other side. Answers the cell count.
    pub fn witness(
        &mut self,
        cell: usize,
        side: usize,
        memory: &mut [u64],
    ) -> Result<usize, Refusal>
        ensures answer { result ≡ witness_answer self.old cell side (length memory.old) }
        ensures acted { Acted self.old (witness cell side (length memory.old)) (tabled result memory.new) self.new }
        ensures beyond { drop (figures_of self.old).shape.cells memory.new ≡ drop (figures_of self.old).shape.cells memory.old }
        ensures untouched { is_ok result ≡ false → memory.new ≡ memory.old }
    {
        self.set_covers(Cover::Shown);
        Trials {
            bench: &mut self.bench,
            network: &self.network,
            rows: self.table.rows.as_slice(),
        }
        .witness(cell, Side::from(side), memory)
    }
}
