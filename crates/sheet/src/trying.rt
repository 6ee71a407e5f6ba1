// Trials on a sheet: the covers that they go by, and the audit.
ghost use Rattle.std.specs.Prelude.{◌≡◌, ◌<◌, length, slice_set};
ghost use Rattle.readings.specs.Exposure.{audit};
ghost use Rattle.readings.specs.Paths.{withheld_by};
ghost use Rattle.readings.specs.Tables.{CoverNeeds};
ghost use Rattle.sheet.specs.Sheets.{figures_of, rows_of};
ghost use Rattle.sheet.specs.Trying.{SameTable, cover_of_mark, covers_of};

use crate::held::Sheet;
use layouts::memory::{Cover, Mark, Row};
use readings::trials::Trials;
use refusals::Side;

// What covers a cell of that mark, where an open one gets the cover that is chosen.
fn cover_of(mark: Mark, chosen: Cover) -> Cover
    ensures { result ≡ cover_of_mark chosen mark }
{
    match mark {
        Mark::Open => chosen,
        Mark::Sensitive | Mark::Complement => Cover::Withheld,
        Mark::Printed | Mark::Barred => Cover::Shown,
    }
}

fn cover_rows(rows: &[Row], covers: &mut [Cover], chosen: Cover)
    requires { length covers.old ≡ length rows.now }
    ensures { covers.new ≡ covers_of chosen rows.now }
{
    for (cell, row) in rows.iter().enumerate() {
        covers[cell] = cover_of(row.mark, chosen);
    }
}

impl Sheet {
    // Covers the cells by their rows, where each open cell gets the cover that is chosen.
    pub(crate) fn set_covers(&mut self, chosen: Cover)
        ensures same { SameTable self.old self.new }
        ensures covers { self.new.bench.covers.items ≡ covers_of chosen (rows_of self.old) }
    {
        cover_rows(
            self.table.rows.as_slice(),
            self.bench.covers.as_mut_slice(),
            chosen,
        );
    }

    // Covers one cell.
    pub(crate) fn set_cover(&mut self, cell: usize, cover: Cover)
        requires { cell < (figures_of self.old).shape.cells }
        ensures same { SameTable self.old self.new }
        ensures cover { self.new.bench.covers.items ≡ slice_set self.old.bench.covers.items cell cover }
    {
        self.bench.covers[cell] = cover;
    }

    // The lowest sensitive cell that is exposed, up before down, where the covers say what is withheld.
    pub(crate) fn audit(&mut self) -> Option<(usize, Side)>
        requires { CoverNeeds (figures_of self.old) self.old.bench.covers.items }
        ensures says { result ≡ audit (figures_of self.old) (withheld_by self.old.bench.covers.items) }
        ensures same { SameTable self.old self.new }
        ensures covers { self.new.bench.covers.items ≡ self.old.bench.covers.items }
    {
        Trials {
            bench: &mut self.bench,
            network: &self.network,
            rows: self.table.rows.as_slice(),
        }
        .audit()
    }
}
