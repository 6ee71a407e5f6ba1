// The witness of a cell and a side.
ghost use Rattle.std.specs.Prelude.{◌≡◌, ℕ, ◌≤◌, true, false, ◌++◌, length, drop, is_ok};
ghost use Rattle.layouts.specs.Admission.{shape_of};
ghost use Rattle.readings.specs.Paths.{at, withheld_by};
ghost use Rattle.readings.specs.Readings.{Witness};
ghost use Rattle.readings.specs.Rows.{figures, looked_at, needs};
ghost use Rattle.readings.specs.Tables.{Lent};
ghost use Rattle.readings.specs.Witnesses.{witness_answer};

use crate::trial::trial;
use layouts::memory::{Bench, Row};
use layouts::network::Network;
use refusals::{Refusal, Side};

// Writes the table at the front of the memory.
fn write_front(memory: &mut [u64], table: &[u64])
    requires { length table.now ≤ length memory.old }
    ensures { memory.new ≡ table.now ++ drop (length table.now) memory.old }
{
    memory[0..table.len()].copy_from_slice(table);
}

// Tries the cell on that side, and writes the reading that the trial came to into the memory.
pub(crate) fn write_witness(
    network: &Network,
    rows: &[Row],
    bench: &mut Bench,
    cell: usize,
    side: Side,
    memory: &mut [u64],
) -> Result<usize, Refusal>
    requires { Lent network.now rows.now bench.old }
    ensures lent { Lent network.now rows.now bench.new }
    ensures kept { bench.new.covers.items ≡ bench.old.covers.items }
    ensures answer { result ≡ witness_answer (looked_at (shape_of network.now) rows.now) (withheld_by bench.old.covers.items) cell side (length memory.old) }
    ensures written { is_ok result ≡ true → Witness (shape_of network.now) (withheld_by bench.old.covers.items) (figures rows.now) (needs rows.now cell) cell side (at memory.new) }
    ensures beyond { (c : ℕ) → length rows.now ≤ c → at memory.new c ≡ at memory.old c }
    ensures untouched { is_ok result ≡ false → memory.new ≡ memory.old }
{
    let cells = rows.len();
    if cell >= cells {
        return Err(Refusal::UnknownCell { cell });
    }
    if rows[cell].need == 0 {
        return Err(Refusal::NotSensitive { cell });
    }
    if memory.len() < cells {
        return Err(Refusal::MemorySize);
    }
    if trial(network, rows, bench, side, cell) {
        return Err(Refusal::Exposed { cell, side });
    }
    write_front(memory, bench.table.as_slice());
    Ok(cells)
}
