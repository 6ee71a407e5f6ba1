// The calls of the engine: the audit and the witness.
ghost use Rattle.std.specs.Prelude.{◌≡◌, ℕ, ◌≤◌, true, false, length, is_ok};
ghost use Rattle.layouts.specs.Admission.{shape_of};
ghost use Rattle.readings.specs.Exposure.{audit};
ghost use Rattle.readings.specs.Paths.{at, withheld_by};
ghost use Rattle.readings.specs.Readings.{Witness};
ghost use Rattle.readings.specs.Rows.{figures, looked_at, needs};
ghost use Rattle.readings.specs.Tables.{Fits};
ghost use Rattle.readings.specs.Witnesses.{witness_answer};

use crate::audit::first_exposed;
use crate::trials::Trials;
use crate::witness::write_witness;
use refusals::{Refusal, Side};

impl Trials<'_> {
    // The lowest sensitive cell that is exposed, up before down.
    pub fn audit(self) -> Option<(usize, Side)>
        ensures says { result ≡ audit (looked_at (shape_of self.entry.network.now) self.entry.rows.now) (withheld_by self.entry.bench.now.covers.items) }
        ensures kept { self.exit.0.now.covers.items ≡ self.entry.bench.now.covers.items }
        ensures fits { Fits self.entry.network.now self.exit.0.now }
    {
        let Trials {
            bench,
            network,
            rows,
        } = self;
        first_exposed(network, rows, bench)
    }

    // Writes a reading into the memory that has the cell's figure and need together, or more, on the side up; on the side down, the
    // figure less the need, or less. Answers the cell count.
    pub fn witness(self, cell: usize, side: Side, memory: &mut [u64]) -> Result<usize, Refusal>
        ensures answer { result ≡ witness_answer (looked_at (shape_of self.entry.network.now) self.entry.rows.now) (withheld_by self.entry.bench.now.covers.items) cell side (length memory.old) }
        ensures written { is_ok result ≡ true → Witness (shape_of self.entry.network.now) (withheld_by self.entry.bench.now.covers.items) (figures self.entry.rows.now) (needs self.entry.rows.now cell) cell side (at memory.new) }
        ensures beyond { (c : ℕ) → length self.entry.rows.now ≤ c → at memory.new c ≡ at memory.old c }
        ensures untouched { is_ok result ≡ false → memory.new ≡ memory.old }
        ensures kept { self.exit.0.now.covers.items ≡ self.entry.bench.now.covers.items }
        ensures fits { Fits self.entry.network.now self.exit.0.now }
    {
        let Trials {
            bench,
            network,
            rows,
        } = self;
        write_witness(network, rows, bench, cell, side, memory)
    }
}
