// Opening an intake, and entering contributions one at a time.
ghost use Rattle.std.specs.Prelude.{◌≡◌, false, [], is_ok};
ghost use Rattle.layouts.specs.Admission.{shape_of};
ghost use Rattle.intake.specs.Chains.{held};
ghost use Rattle.intake.specs.Entering.{enter_answer};
ghost use Rattle.rules.specs.Telling.{after};

use crate::chains::Chains;
use crate::held::Intake;
use layouts::admitted::Admitted;
use layouts::memory::{Contribution, Memory};
use refusals::Refusal;
use rules::telling::verdict;

impl<R: Drop> Intake<R> {
    pub fn open(admitted: Admitted, rule: R) -> Intake<R>
        ensures none { held result.chains.records.items ≡ [] }
        ensures network { result.network ≡ admitted.network }
        ensures rule { result.rule ≡ rule }
    {
        let Admitted { network, memory } = admitted;
        let Memory {
            records,
            heads,
            pending,
            seen,
            rows,
            bench,
        } = memory;
        Intake {
            rule,
            network,
            chains: Chains { records, heads },
            pending,
            seen,
            rows,
            bench,
        }
    }

    // Appends a record, and lengthens the chain of its leaf by it. Answers how many contributions are held.
    pub fn enter(&mut self, x: Contribution) -> Result<usize, Refusal>
        ensures answer { result ≡ enter_answer (shape_of self.old.network) (held self.old.chains.records.items) x }
        ensures held { held self.new.chains.records.items ≡ after result (held self.old.chains.records.items) x }
        ensures same { (self.new.network ≡ self.old.network) × (self.new.rule ≡ self.old.rule) }
        ensures untouched { is_ok result ≡ false → self.new ≡ self.old }
    {
        let cell = x.leaf;
        let Some(edge) = self.network.edges.get(cell) else {
            return Err(Refusal::UnknownCell { cell });
        };
        if !edge.leaf {
            return Err(Refusal::NotALeaf { cell });
        }
        verdict(cell, x.amount, self.chains.records.len())?;
        Ok(self.chains.append(x))
    }
}
