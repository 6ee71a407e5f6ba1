// A layout that is admitted: its answers, and all memory that it will ever need.
ghost use Rattle.std.specs.Prelude.{vec_len};
ghost use Rattle.layouts.specs.Blank.{Fresh};

use crate::memory::Memory;
use crate::network::Network;

#[derive(Drop)]
pub struct Admitted {
    pub network: Network,
    pub memory: Memory,
    ghost fresh: { Fresh (vec_len network.edges) network.relations memory },
}
