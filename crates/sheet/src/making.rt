// A sheet is made from what settling gives.
ghost use Rattle.std.specs.Prelude.{◌≡◌};
ghost use Rattle.runs.specs.Acts.{fresh};
ghost use Rattle.sheet.specs.Sheets.{rows_of, stands};

use crate::held::Sheet;
use crate::table::Table;
use intake::settled::Settled;

impl Sheet {
    // The sheet of what was settled, with neither complements nor printed cells.
    pub fn new(settled: Settled) -> Sheet
        ensures network { result.network ≡ settled.network }
        ensures rows { rows_of result ≡ settled.rows.items }
        ensures fresh { stands result ≡ fresh }
    {
        let Settled {
            network,
            rows,
            bench,
        } = settled;
        Sheet {
            network,
            table: Table { rows },
            bench,
        }
    }
}
