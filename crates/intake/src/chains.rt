// The records of the contributions, and the chain of each leaf through them.
ghost use Rattle.std.specs.Prelude.{◌≡◌, ℕ, ◌+◌, ◌<◌, ◌≤◌, List, [], ◌∷◌, ◌++◌, length, vec_len, vec_capacity, sum};
ghost use Rattle.intake.specs.Chains.{Chained, chain_of, held};

use layouts::memory::{Contribution, Record};
use rules::Rule;

#[derive(Drop)]
pub struct Chains {
    pub(crate) records: Vec<Record>,
    pub(crate) heads: Vec<Option<u32>>,
    ghost room: { 2048 ≤ vec_capacity records },
    ghost chained: { Chained records.items heads.items },
}

impl Chains {
    // Appends a record, and lengthens the chain of its leaf by it. Answers how many contributions are held.
    pub(crate) fn append(&mut self, x: Contribution) -> usize
        requires inside { x.leaf < vec_len self.old.heads }
        requires small { x.amount ≤ 1000000000 }
        requires room { vec_len self.old.records < 2048 }
        ensures number { result ≡ length (held self.old.records.items) + 1 }
        ensures held { held self.new.records.items ≡ held self.old.records.items ++ x ∷ [] }
        ensures heads { vec_len self.new.heads ≡ vec_len self.old.heads }
    {
        let place = self.records.len();
        let next = self.heads[x.leaf];
        self.heads[x.leaf] = Some(place as u32);
        self.records.push_reserved(Record {
            contribution: x,
            next,
        });
        place + 1
    }

    // Tells the rule the amounts of a leaf, the latest first, and answers their sum.
    pub(crate) fn tell_chain<R: Rule>(&self, rule: &mut R, leaf: usize) -> u64
        requires { leaf < vec_len self.now.heads }
        ensures sum { result ≡ sum (chain_of self.now.records.items leaf) }
        ensures bound { result ≤ 2048000000000 }
        ensures told { (xs : List ℕ) → R.stands rule.old xs → length xs + length (chain_of self.now.records.items leaf) ≤ 2048 → R.stands rule.new (xs ++ chain_of self.now.records.items leaf) }
        ensures same { (xs : List ℕ) → R.meaning rule.new xs ≡ R.meaning rule.old xs }
    {
        let mut sum = 0;
        let mut link = self.heads[leaf];
        while let Some(at) = link {
            let record = self.records[at as usize];
            let amount = record.contribution.amount;
            let _ = rule.tell(amount);
            sum += amount;
            link = record.next;
        }
        sum
    }
}
