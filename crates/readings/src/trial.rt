// The trial of one cell on one side: its own cover is barred meanwhile, so that no path runs back through it.
ghost use Rattle.std.specs.Prelude.{◌≡◌, ◌<◌, true, map, length, slice_set};
ghost use Rattle.layouts.specs.Admission.{shape_of};
ghost use Rattle.readings.specs.Paths.{Tried, at, withheld_by};
ghost use Rattle.readings.specs.Rows.{looked_at, needs};
ghost use Rattle.readings.specs.Tables.{Lent, Tabled};

use crate::paths::change;
use layouts::memory::{Bench, Cover, Reach, Row};
use layouts::network::Network;
use refusals::Side;
use std::mem;

// Holds the trial's covers while a cell is barred, and puts the cell's own cover back when it is let go.
struct Barred<'a> {
    covers: &'a mut [Cover],
    cell: usize,
    saved: Cover,
}

impl Drop for Barred<'_> {
    fn drop(self)
        requires { self.cell < length self.covers.now }
        ensures { self.exit.0.now ≡ slice_set self.entry.covers.now self.entry.cell self.entry.saved }
    {
        self.covers[self.cell] = self.saved;
        let Barred {
            covers: _,
            cell: _,
            saved: _,
        } = self;
    }
}

impl<'a> Barred<'a> {
    // The covers, lent on for the search.
    fn view(&self) -> &[Cover]
        ensures { result.now ≡ self.now.covers.now }
    {
        &*self.covers
    }
}

// Copies the figures of the rows into the table.
fn copy_figures(rows: &[Row], table: &mut [u64])
    requires { length table.old ≡ length rows.now }
    ensures { table.new ≡ map (λ r. r.figure) rows.now }
{
    for (cell, row) in rows.iter().enumerate() {
        table[cell] = row.figure;
    }
}

// Whether the cell is exposed on that side; where it is not, the table is a reading that shows it.
//
// The amounts go by halves. Where no path has the amount d, a closed set of relations has only cells with less than d on its ways
// out, so that at most two paths of half that amount can follow for each cell: for n cells, and a need below 2 ^ 41, there are
// at most 2 * n * 41 paths.
fn try_cell(
    network: &Network,
    rows: &[Row],
    covers: &mut [Cover],
    table: &mut [u64],
    reached: &mut [Option<Reach>],
    side: Side,
    cell: usize,
) -> bool
    requires tabled { Tabled network.now rows.now }
    requires sizes { (length covers.old ≡ length rows.now) × (length table.old ≡ length rows.now) × (length reached.old ≡ network.now.relations) × (cell < length rows.now) }
    requires withheld { withheld_by covers.old cell ≡ true }
    ensures kept { covers.new ≡ covers.old }
    ensures tried { Tried (looked_at (shape_of network.now) rows.now) (withheld_by covers.old) cell side result (at table.new) }
{
    let saved = mem::replace(&mut covers[cell], Cover::Barred);
    let guard = Barred {
        covers,
        cell,
        saved,
    };
    copy_figures(rows, table);
    let mut left = rows[cell].need;
    let mut amount = left;
    while left > 0 {
        if change(network, guard.view(), table, reached, side, amount, cell) {
            left -= amount;
            amount = amount.min(left);
        } else if amount > 1 {
            amount /= 2;
        } else {
            return true;
        }
    }
    false
}

// The same on a bench.
pub(crate) fn trial(
    network: &Network,
    rows: &[Row],
    bench: &mut Bench,
    side: Side,
    cell: usize,
) -> bool
    requires lent { Lent network.now rows.now bench.old }
    requires sensitive { (cell < length rows.now) × (0 < needs rows.now cell) }
    ensures lent { Lent network.now rows.now bench.new }
    ensures kept { bench.new.covers.items ≡ bench.old.covers.items }
    ensures tried { Tried (looked_at (shape_of network.now) rows.now) (withheld_by bench.old.covers.items) cell side result (at bench.new.table.items) }
{
    let Bench {
        covers,
        table,
        reached,
    } = bench;
    try_cell(
        network,
        rows,
        covers.as_mut_slice(),
        table.as_mut_slice(),
        reached.as_mut_slice(),
        side,
        cell,
    )
}
