// What the engine is lent for an audit or a witness.
ghost use Rattle.readings.specs.Tables.{Lent};

use layouts::memory::{Bench, Row};
use layouts::network::Network;

// Memory to try readings in, whose covers withhold at least the sensitive cells, and the rows of a table that balances over its
// network.
pub struct Trials<'a> {
    pub bench: &'a mut Bench,
    pub network: &'a Network,
    pub rows: &'a [Row],
    ghost lent: { Lent network.now rows.now bench.now },
}
