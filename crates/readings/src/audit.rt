// The audit of all sensitive cells.
ghost use Rattle.std.specs.Prelude.{◌≡◌, ◌<◌, length};
ghost use Rattle.layouts.specs.Admission.{shape_of};
ghost use Rattle.readings.specs.Exposure.{audit, exposure_at};
ghost use Rattle.readings.specs.Paths.{withheld_by};
ghost use Rattle.readings.specs.Rows.{looked_at};
ghost use Rattle.readings.specs.Tables.{Lent};

use crate::trial::trial;
use layouts::memory::{Bench, Row};
use layouts::network::Network;
use refusals::Side;

// Where the cell is exposed, if it is sensitive, up before down.
fn exposed_at(
    network: &Network,
    rows: &[Row],
    bench: &mut Bench,
    cell: usize,
) -> Option<(usize, Side)>
    requires lent { Lent network.now rows.now bench.old }
    requires inside { cell < length rows.now }
    ensures lent { Lent network.now rows.now bench.new }
    ensures kept { bench.new.covers.items ≡ bench.old.covers.items }
    ensures says { result ≡ exposure_at (looked_at (shape_of network.now) rows.now) (withheld_by bench.old.covers.items) cell }
{
    if rows[cell].need == 0 {
        return None;
    }
    if trial(network, rows, bench, Side::Up, cell) {
        return Some((cell, Side::Up));
    }
    if trial(network, rows, bench, Side::Down, cell) {
        return Some((cell, Side::Down));
    }
    None
}

// The lowest sensitive cell that is exposed, up before down.
pub(crate) fn first_exposed(
    network: &Network,
    rows: &[Row],
    bench: &mut Bench,
) -> Option<(usize, Side)>
    requires { Lent network.now rows.now bench.old }
    ensures lent { Lent network.now rows.now bench.new }
    ensures kept { bench.new.covers.items ≡ bench.old.covers.items }
    ensures says { result ≡ audit (looked_at (shape_of network.now) rows.now) (withheld_by bench.old.covers.items) }
{
    for cell in 0..rows.len() {
        if let Some(found) = exposed_at(network, rows, bench, cell) {
            return Some(found);
        }
    }
    None
}
