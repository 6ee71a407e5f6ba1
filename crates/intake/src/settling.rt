// Settling: the figure and the need of each cell, from the chains of the leaves that count under it.
ghost use Rattle.std.specs.Prelude.{◌≡◌, ℕ, ◌<◌, List, length, vec_len};
ghost use Rattle.layouts.specs.Admission.{shape_of};
ghost use Rattle.intake.specs.Chains.{held};
ghost use Rattle.intake.specs.Marks.{first_mark};
ghost use Rattle.intake.specs.Settling.{settled_row, settled_rows};

use crate::chains::Chains;
use crate::held::Intake;
use crate::settled::Settled;
use layouts::memory::{Mark, Row};
use layouts::network::Network;
use rules::Rule;

// A cell with a need is sensitive, and any other is open.
fn mark_of(need: u64) -> Mark
    ensures { result ≡ first_mark need }
{
    if need > 0 {
        Mark::Sensitive
    } else {
        Mark::Open
    }
}

// The row of a cell: its figure and its need over the amounts entered under it.
fn settle_cell<R: Rule>(rule: &mut R, network: &Network, chains: &Chains, cell: usize) -> Row
    requires wide { vec_len chains.now.heads ≡ vec_len network.now.edges }
    requires inside { cell < vec_len network.now.edges }
    ensures row { result ≡ settled_row (shape_of network.now) (R.meaning rule.old) (held chains.now.records.items) cell }
    ensures same { (xs : List ℕ) → R.meaning rule.new xs ≡ R.meaning rule.old xs }
{
    rule.begin();
    let mut figure = 0;
    for (leaf, edge) in network.edges.iter().enumerate() {
        if edge.under[cell] {
            figure += chains.tell_chain(rule, leaf);
        }
    }
    let need = rule.need();
    let mark = mark_of(need);
    Row { figure, need, mark }
}

// The rows of all cells.
fn settle_rows<R: Rule>(rule: &mut R, network: &Network, chains: &Chains, rows: &mut [Row])
    requires { (vec_len chains.now.heads ≡ vec_len network.now.edges) × (length rows.old ≡ vec_len network.now.edges) }
    ensures { rows.new ≡ settled_rows (shape_of network.now) (R.meaning rule.old) (held chains.now.records.items) }
{
    for (cell, row) in rows.iter_mut().enumerate() {
        *row = settle_cell(rule, network, chains, cell);
    }
}

impl<R: Rule + Drop> Intake<R> {
    // Uses the intake up, and gives each cell its figure and its need.
    pub fn settle(self) -> Settled
        ensures network { result.network ≡ self.network }
        ensures rows { result.rows.items ≡ settled_rows (shape_of self.network) (R.meaning self.rule) (held self.chains.records.items) }
    {
        let Intake {
            mut rule,
            network,
            chains,
            pending: _,
            seen: _,
            mut rows,
            bench,
        } = self;
        settle_rows(&mut rule, &network, &chains, &mut rows);
        Settled {
            network,
            rows,
            bench,
        }
    }
}
