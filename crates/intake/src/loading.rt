// Loading a deposit: all of it, or nothing.
ghost use Rattle.std.specs.Prelude.{◌≡◌, ◌+◌, ◌≤◌, false, ◌++◌, length, Ok, is_ok, vec_len};
ghost use Rattle.std.specs.Result.{result_and};
ghost use Rattle.layouts.specs.Admission.{shape_of};
ghost use Rattle.intake.specs.Chains.{held};
ghost use Rattle.intake.specs.Deposit.{deposited, held_then, record_count};
ghost use Rattle.intake.specs.Walks.{Good};

use crate::deposit::{count_records, read_chains};
use crate::held::Intake;
use refusals::Refusal;

impl<R: Drop> Intake<R> {
    // Does what entering each chain in its order, cell by cell, would do, and answers the record count. A refused deposit enters nothing.
    pub fn load(&mut self, bytes: &[u8]) -> Result<usize, Refusal>
        ensures answer { result ≡ result_and (deposited (shape_of self.old.network) (length (held self.old.chains.records.items)) bytes.now) (Ok (record_count bytes.now)) }
        ensures held { held self.new.chains.records.items ≡ held_then (deposited (shape_of self.old.network) (length (held self.old.chains.records.items)) bytes.now) (held self.old.chains.records.items) }
        ensures same { (self.new.network ≡ self.old.network) × (self.new.rule ≡ self.old.rule) }
        ensures untouched { is_ok result ≡ false → self.new.chains ≡ self.old.chains }
    {
        let cells = self.network.edges.len();
        let records = count_records(bytes, cells, self.chains.records.len())?;
        read_chains(
            bytes,
            &self.network,
            records,
            &mut self.seen,
            &mut self.pending,
        )?;
        self.enter_pending();
        Ok(records)
    }

    // Enters what was read of a deposit.
    fn enter_pending(&mut self)
        requires good { Good (shape_of self.old.network) self.old.pending.items }
        requires room { vec_len self.old.chains.records + vec_len self.old.pending ≤ 2048 }
        ensures held { held self.new.chains.records.items ≡ held self.old.chains.records.items ++ self.old.pending.items }
        ensures same { (self.new.network ≡ self.old.network) × (self.new.rule ≡ self.old.rule) }
    {
        let chains = &mut self.chains;
        for x in &self.pending {
            let _ = chains.append(*x);
        }
    }
}
