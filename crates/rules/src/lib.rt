// Risk rules: whether a list of amounts is sensitive, and how much uncertainty it then needs.
#![tactic(auto)]

ghost use Rattle.std.specs.Prelude.{◌≡◌, ℕ, ◌≤◌, List, [], length, sum};
ghost use Rattle.std.specs.List.Sorted.{IsPermutation};
ghost use Rattle.rules.specs.Examples.{WorkedNeeds};
ghost use Rattle.rules.specs.Largest.{Descends, TwoLargestWithin};
ghost use Rattle.rules.specs.Telling.{accepted, after, need_answer, verdict};

use refusals::Refusal;

pub mod nk;
pub mod p_percent;
pub mod summary;
pub mod telling;

// A rule is told amounts one at a time, and asked for the need of those told since it was begun; its making begins it.
// Its meaning is the need of every list; `stands` says which list it was told. The order of the amounts makes no
// difference to the need, and the need is at most their sum.
pub trait Rule {
    ghost meaning: { Self → List ℕ → ℕ };

    ghost stands: { Self → List ℕ → Type 0 };

    fn begin(&mut self)
        ensures stands { stands self.new [] }
        ensures same { (xs : List ℕ) → meaning self.new xs ≡ meaning self.old xs };

    fn tell(&mut self, amount: u64) -> Result<(), Refusal>
        ensures refused { (xs : List ℕ) → stands self.old xs → result ≡ verdict 0 amount (length xs) }
        ensures stands { (xs : List ℕ) → stands self.old xs → stands self.new (after result xs amount) }
        ensures same { (xs : List ℕ) → meaning self.new xs ≡ meaning self.old xs };

    fn need(&self) -> u64
        ensures { (xs : List ℕ) → stands self.now xs → result ≡ meaning self.now xs };

    ghost bound: { (r : Self) (xs : List ℕ) → meaning r xs ≤ sum xs };

    ghost order: { (r : Self) (xs ys : List ℕ) → IsPermutation xs ys → meaning r ys ≡ meaning r xs };
}

// Begins the rule, tells it the amounts in their order, and asks. Where one is refused, the rule stands for those before it.
pub fn need_of<R: Rule>(rule: &mut R, amounts: &[u64]) -> Result<u64, Refusal>
    ensures answer { result ≡ need_answer (R.meaning rule.old) amounts.now }
    ensures stands { R.stands rule.new (accepted 0 amounts.now) }
    ensures same { (xs : List ℕ) → R.meaning rule.new xs ≡ R.meaning rule.old xs }
{
    rule.begin();
    for amount in amounts {
        rule.tell(*amount)?;
    }
    Ok(rule.need())
}

// The worked needs.
pub fn worked_needs_hold()
    ensures { WorkedNeeds }
{}

// The list from the largest down is what its name says, and the remainder never falls short.
pub fn largest_hold()
    ensures descends { Descends }
    ensures within { TwoLargestWithin }
{}
