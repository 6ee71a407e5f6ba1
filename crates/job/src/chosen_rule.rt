// The rule that a settings line names.
ghost use Rattle.job.specs.Chosen.{meaning_of, ToldOf};
ghost use Rattle.rules.specs.NeedLaws.{p_bound, nk_bound, p_order, nk_order};
ghost use Rattle.job.specs.declared.chosen_rule.ChosenRule.TheVariants.{P, Nk};

use refusals::Refusal;
use rules::Rule;
use rules::nk::NK;
use rules::p_percent::PPercent;

#[derive(Clone, Copy)]
pub enum ChosenRule {
    P(PPercent),
    Nk(NK),
}

impl Rule for ChosenRule {
    ghost meaning = { meaning_of };

    ghost stands = { ToldOf };

    ghost bound = { elim [
      | P r ↦ λ xs. p_bound r.percent xs r.ok.1
      | Nk r ↦ λ xs. nk_bound r.n r.k xs r.ok.2
    ] };

    ghost order = { elim [
      | P r ↦ λ xs ys s. p_order r.percent xs ys s
      | Nk r ↦ λ xs ys s. nk_order r.n r.k xs ys s
    ] };

    fn begin(&mut self) {
        match self {
            ChosenRule::P(rule) => rule.begin(),
            ChosenRule::Nk(rule) => rule.begin(),
        }
    }

    fn tell(&mut self, amount: u64) -> Result<(), Refusal> {
        match self {
            ChosenRule::P(rule) => rule.tell(amount),
            ChosenRule::Nk(rule) => rule.tell(amount),
        }
    }

    fn need(&self) -> u64 {
        match self {
            ChosenRule::P(rule) => rule.need(),
            ChosenRule::Nk(rule) => rule.need(),
        }
    }
}
