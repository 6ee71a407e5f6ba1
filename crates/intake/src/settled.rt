// What settling gives: the layout's answers, the rows of the table, and the memory to try readings with.
ghost use Rattle.std.specs.Prelude.{◌≡◌, ℕ, ◌<◌, vec_len};
ghost use Rattle.readings.specs.Rows.{needs};
ghost use Rattle.readings.specs.Tables.{Fits, Tabled};
ghost use Rattle.intake.specs.Marks.{first_mark, mark_at};
ghost use Rattle.intake.specs.Settling.{Grounded};

use layouts::memory::{Bench, Row};
use layouts::network::Network;

// The figures balance. No need is above its figure, and no figure above 2,048 times the largest amount. A cell is open, or sensitive
// where its need is above 0; and then some leaf counts under it.
#[derive(Drop)]
pub struct Settled {
    pub network: Network,
    pub rows: Vec<Row>,
    pub bench: Bench,
    ghost tabled: { Tabled network rows.items },
    ghost fits: { Fits network bench },
    ghost begun: { (c : ℕ) → c < vec_len network.edges → mark_at rows.items c ≡ first_mark (needs rows.items c) },
    ghost grounded: { Grounded network rows.items },
}
