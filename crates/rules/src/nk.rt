// The (n,k) rule: the N largest together may not have more than K percent of the sum.
ghost use Rattle.std.specs.Prelude.{◌≡◌, ◌≤◌, [], is_ok, MatchResult};
ghost use Rattle.refusals.specs.declared.Refusal.TheVariants.{RuleRange};
ghost use Rattle.rules.specs.Needs.{nk_need, nk_range};
ghost use Rattle.rules.specs.Told.{Told};
ghost use Rattle.rules.specs.NeedLaws.{nk_bound, nk_order};

use crate::Rule;
use crate::summary::Summary;
use refusals::Refusal;

#[derive(Clone, Copy)]
pub struct NK {
    n: u64,
    k: u64,
    pub told: Summary,
    ghost ok: { (1 ≤ n) × (n ≤ 3) × (50 ≤ k) × (k ≤ 99) },
}

impl NK {
    pub fn new(n: u64, k: u64) -> Result<NK, Refusal>
        ensures range { is_ok result ≡ nk_range n k }
        ensures made { MatchResult result (λ m. (m.n ≡ n) × (m.k ≡ k) × Told m.told []) (λ e. e ≡ RuleRange) }
    {
        if !(1..=3).contains(&n) || !(50..=99).contains(&k) {
            return Err(Refusal::RuleRange);
        }
        Ok(NK {
            n,
            k,
            told: Summary::empty(),
        })
    }
}

impl Rule for NK {
    ghost meaning = { λ r xs. nk_need r.n r.k xs };

    ghost stands = { λ r xs. Told r.told xs };

    ghost bound = { λ r xs. nk_bound r.n r.k xs r.ok.2 };

    ghost order = { λ r xs ys s. nk_order r.n r.k xs ys s };

    fn begin(&mut self) {
        self.told = Summary::empty();
    }

    fn tell(&mut self, amount: u64) -> Result<(), Refusal> {
        self.told.add(amount)
    }

    fn need(&self) -> u64 {
        let largest = 100 * self.told.of_largest(self.n);
        if self.k * self.told.total < largest {
            largest.div_ceil(self.k) - self.told.total
        } else {
            0
        }
    }
}
