// A sheet: the layout's answers, the rows of the table, and the memory to try readings with.
ghost use Rattle.std.specs.Prelude.{◌≡◌, ℕ, ◌<◌, true, vec_len};
ghost use Rattle.readings.specs.Rows.{needs};
ghost use Rattle.readings.specs.Tables.{Fits, Tabled};
ghost use Rattle.intake.specs.Marks.{mark_at};
ghost use Rattle.intake.specs.Settling.{Grounded};
ghost use Rattle.sheet.specs.Cells.{goes_with};

use crate::table::Table;
use layouts::memory::Bench;
use layouts::network::Network;

// The figures balance. No need is above its figure, and no figure above 2,048 times the largest amount. A need above 0 goes with the
// mark sensitive and with no other, and then some leaf counts under the cell. The bench is the memory of trials, and what it holds
// between two calls means nothing.
#[derive(Drop)]
pub struct Sheet {
    pub(crate) network: Network,
    pub(crate) table: Table,
    pub(crate) bench: Bench,
    ghost tabled: { Tabled network table.rows.items },
    ghost fits: { Fits network bench },
    ghost tied: { (c : ℕ) → c < vec_len network.edges → goes_with (needs table.rows.items c) (mark_at table.rows.items c) ≡ true },
    ghost grounded: { Grounded network table.rows.items },
}
