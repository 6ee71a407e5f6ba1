// Which amounts a rule takes, and one amount more in a summary.
ghost use Rattle.std.specs.Prelude.{◌≡◌, ℕ, ◌≤◌, min, List, [], length};
ghost use Rattle.rules.specs.Largest.{n_largest};
ghost use Rattle.rules.specs.Needs.{remainder};
ghost use Rattle.rules.specs.Telling.{after, verdict};
ghost use Rattle.rules.specs.Told.{Told};

use crate::summary::Summary;
use refusals::Refusal;

pub const LARGEST_AMOUNT: u64 = 1_000_000_000;

pub const MOST_CONTRIBUTIONS: usize = 2_048;

// Whether the amount of a cell is taken, after so many others. A rule by itself knows no cell, and names 0.
pub fn verdict(cell: usize, amount: u64, count: usize) -> Result<(), Refusal>
    ensures { result ≡ verdict cell amount count }
{
    if amount > LARGEST_AMOUNT {
        return Err(Refusal::AmountTooLarge { cell });
    }
    if count >= MOST_CONTRIBUTIONS {
        return Err(Refusal::TooManyContributions);
    }
    Ok(())
}

impl Summary {
    pub fn empty() -> Summary
        ensures { Told result [] }
    {
        Summary {
            total: 0,
            first: 0,
            second: 0,
            third: 0,
            count: 0,
        }
    }

    // At each of the three places the larger stays, and the smaller goes on.
    pub fn add(&mut self, amount: u64) -> Result<(), Refusal>
        ensures refused { (xs : List ℕ) → Told self.old xs → result ≡ verdict 0 amount (length xs) }
        ensures stands { (xs : List ℕ) → Told self.old xs → Told self.new (after result xs amount) }
    {
        verdict(0, amount, self.count)?;
        let past_first = amount.min(self.first);
        let past_second = past_first.min(self.second);
        *self = Summary {
            total: self.total + amount,
            first: amount.max(self.first),
            second: past_first.max(self.second),
            third: past_second.max(self.third),
            count: self.count + 1,
        };
        Ok(())
    }

    // All but the two largest.
    pub fn remainder(&self) -> u64
        ensures bound { result ≤ self.now.total }
        ensures value { (xs : List ℕ) → Told self.now xs → result ≡ remainder xs }
    {
        self.total - self.first - self.second
    }

    // The sum of the n largest, and of the three largest where n is above 3.
    pub fn of_largest(&self, n: u64) -> u64
        ensures bound { result ≤ self.now.total }
        ensures value { (xs : List ℕ) → Told self.now xs → result ≡ n_largest (min n 3) xs }
    {
        match n {
            0 => 0,
            1 => self.first,
            2 => self.first + self.second,
            _ => self.first + self.second + self.third,
        }
    }
}
