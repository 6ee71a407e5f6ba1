// The p-percent rule: with what the second largest knows of its own, it may not tell the largest to less than P percent.
ghost use Rattle.std.specs.Prelude.{◌≡◌, ◌≤◌, [], is_ok, MatchResult};
ghost use Rattle.refusals.specs.declared.Refusal.TheVariants.{RuleRange};
ghost use Rattle.rules.specs.Needs.{p_need, p_range};
ghost use Rattle.rules.specs.Told.{Told};
ghost use Rattle.rules.specs.NeedLaws.{p_bound, p_order};

use crate::Rule;
use crate::summary::Summary;
use refusals::Refusal;

#[derive(Clone, Copy)]
pub struct PPercent {
    percent: u64,
    pub told: Summary,
    ghost ok: { (1 ≤ percent) × (percent ≤ 100) },
}

impl PPercent {
    pub fn new(percent: u64) -> Result<PPercent, Refusal>
        ensures range { is_ok result ≡ p_range percent }
        ensures made { MatchResult result (λ m. (m.percent ≡ percent) × Told m.told []) (λ e. e ≡ RuleRange) }
    {
        if !(1..=100).contains(&percent) {
            return Err(Refusal::RuleRange);
        }
        Ok(PPercent {
            percent,
            told: Summary::empty(),
        })
    }
}

impl Rule for PPercent {
    ghost meaning = { λ r xs. p_need r.percent xs };

    ghost stands = { λ r xs. Told r.told xs };

    ghost bound = { λ r xs. p_bound r.percent xs r.ok.1 };

    ghost order = { λ r xs ys s. p_order r.percent xs ys s };

    fn begin(&mut self) {
        self.told = Summary::empty();
    }

    fn tell(&mut self, amount: u64) -> Result<(), Refusal> {
        self.told.add(amount)
    }

    fn need(&self) -> u64 {
        let most = self.percent * self.told.first;
        let least = 100 * self.told.remainder();
        if least < most {
            (most - least).div_ceil(100)
        } else {
            0
        }
    }
}
