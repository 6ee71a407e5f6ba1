// Paths of changes: the search for one, and the changes along it.
ghost use Rattle.std.specs.Prelude.{◌≡◌, ℕ, ◌+◌, ◌^◌, ◌<◌, false, length, vec_len, IfSome};
ghost use Rattle.layouts.specs.Admission.{shape_of};
ghost use Rattle.readings.specs.Balance.{Balanced};
ghost use Rattle.readings.specs.Exposure.{ahead, behind};
ghost use Rattle.readings.specs.Paths.{Changed, Explored, at, far_end_of, is_leading, is_reached, layer_in, next_cell, turned, via_in, withheld_by};
ghost use Rattle.readings.specs.Theorems.{Room};

use layouts::memory::{Cover, Reach};
use layouts::network::Network;
use refusals::Side;

// The relation that a path of that side comes from to raise the cell, and the one that it then comes to.
fn ends(network: &Network, side: Side, cell: usize) -> (usize, usize)
    requires { cell < vec_len network.now.edges }
    ensures behind { result.0 ≡ behind (shape_of network.now) side cell }
    ensures ahead { result.1 ≡ ahead (shape_of network.now) side cell }
    ensures inside { (result.0 < network.now.relations) × (result.1 < network.now.relations) }
{
    let edge = &network.edges[cell];
    match side {
        Side::Up => (edge.leaves, edge.enters),
        Side::Down => (edge.enters, edge.leaves),
    }
}

// A search for a path of that side and amount, through the cells that the covers withhold.
#[derive(Clone, Copy)]
struct Search<'a> {
    network: &'a Network,
    covers: &'a [Cover],
    table: &'a [u64],
    side: Side,
    amount: u64,
    ghost sized: { (length covers.now ≡ vec_len network.now.edges) × (length table.now ≡ vec_len network.now.edges) },
}

impl Search<'_> {
    // Whether a reached relation leads to one that is not reached yet by this cell.
    fn leads(&self, reached: &[Option<Reach>], cell: usize) -> bool
        requires { (length reached.now ≡ self.now.network.now.relations) × (cell < vec_len self.now.network.now.edges) }
        ensures { result ≡ is_leading (shape_of self.now.network.now) self.now.side (withheld_by self.now.covers.now) (at self.now.table.now) self.now.amount (is_reached reached.now) cell }
    {
        if self.covers[cell] != Cover::Withheld {
            return false;
        }
        let (behind, ahead) = ends(self.network, self.side, cell);
        if reached[behind].is_some() {
            reached[ahead].is_none()
        } else {
            reached[ahead].is_some() && self.table[cell] >= self.amount
        }
    }

    // The first cell, from the number `from` on, by which a reached relation leads to one that is not reached yet. For the side up a
    // path raises a cell that it passes from the relation that the cell leaves to the one that it enters, and lowers one that it
    // passes the other way, which has to hold the amount; for the side down the roles are turned.
    fn next(&self, reached: &[Option<Reach>], from: usize) -> Option<usize>
        requires { length reached.now ≡ self.now.network.now.relations }
        ensures first { result ≡ next_cell (shape_of self.now.network.now) self.now.side (withheld_by self.now.covers.now) (at self.now.table.now) self.now.amount (is_reached reached.now) from }
        ensures inside { IfSome result (λ c. c < vec_len self.now.network.now.edges) }
    {
        for cell in from..self.network.edges.len() {
            if self.leads(reached, cell) {
                return Some(cell);
            }
        }
        None
    }

    // Searches for a path from `start` to `goal`: goes over the cells from where it found the last one on, and again from the first,
    // until it reaches the goal or finds nothing in a whole round. Says whether the goal is reached. No cell leads to the start, so
    // the cell that is put down there counts for nothing.
    fn run(&self, reached: &mut [Option<Reach>], start: usize, goal: usize) -> bool
        requires { (length reached.old ≡ self.now.network.now.relations) × (start < self.now.network.now.relations) × (goal < self.now.network.now.relations) }
        ensures { Explored (turned (shape_of self.now.network.now) self.now.side) (withheld_by self.now.covers.now) (at self.now.table.now) self.now.amount start goal (layer_in self.now.network.now.relations reached.new) (via_in reached.new) result }
    {
        reached.fill(None);
        reached[start] = Some(Reach { layer: 0, via: 0 });
        let mut count = 1;
        let mut from = 0;
        while reached[goal].is_none() {
            match self.next(reached, from) {
                Some(cell) => {
                    let next = far_end(self.network, reached, cell);
                    reached[next] = Some(Reach {
                        layer: count,
                        via: cell,
                    });
                    count += 1;
                    from = cell + 1;
                }
                None => {
                    if from == 0 {
                        return false;
                    }
                    from = 0;
                }
            }
        }
        true
    }
}

// Of the two relations of a cell that leads on, the one that is not reached yet.
fn far_end(network: &Network, reached: &[Option<Reach>], cell: usize) -> usize
    requires { (length reached.now ≡ network.now.relations) × (cell < vec_len network.now.edges) }
    ensures end { result ≡ far_end_of (shape_of network.now) (is_reached reached.now) cell }
    ensures inside { result < network.now.relations }
{
    let (leaves, enters) = ends(network, Side::Up, cell);
    if reached[leaves].is_some() {
        enters
    } else {
        leaves
    }
}

// Changes the barred cell by the amount on that side, and the cells of one path so that the table balances again. Says whether there
// is such a path.
pub(crate) fn change(
    network: &Network,
    covers: &[Cover],
    table: &mut [u64],
    reached: &mut [Option<Reach>],
    side: Side,
    amount: u64,
    cell: usize,
) -> bool
    requires sizes { (length covers.now ≡ vec_len network.now.edges) × (length table.old ≡ vec_len network.now.edges) × (length reached.old ≡ network.now.relations) × (cell < vec_len network.now.edges) }
    requires barred { withheld_by covers.now cell ≡ false }
    requires balanced { Balanced (shape_of network.now) (at table.old) }
    requires fits { (c : ℕ) → c < length table.old → at table.old c + amount < 2 ^ 64 }
    requires room { Room (at table.old) amount cell side }
    ensures { Changed (shape_of network.now) side (withheld_by covers.now) cell amount (at table.old) (at table.new) result }
{
    // The path goes from the relation that the cell enters to the one that it leaves.
    let (start, goal) = ends(network, Side::Down, cell);
    let search = Search {
        network,
        covers,
        table: &*table,
        side,
        amount,
    };
    if !search.run(reached, start, goal) {
        return false;
    }
    let mut r = goal;
    while r != start {
        let passed = reached[r].unwrap().via;
        let (behind, ahead) = ends(network, side, passed);
        if ahead == r {
            table[passed] += amount;
            r = behind;
        } else {
            table[passed] -= amount;
            r = ahead;
        }
    }
    match side {
        Side::Up => table[cell] += amount,
        Side::Down => table[cell] -= amount,
    }
    true
}
