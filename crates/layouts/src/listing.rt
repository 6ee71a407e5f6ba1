// A list of leaves and their total.
ghost use Rattle.std.specs.Prelude.{◌≡◌, ◌+◌, ◌≤◌, true, false, cond, nat_lt, MatchResult};
ghost use Rattle.refusals.specs.declared.Refusal.TheVariants.{LayoutSize};
ghost use Rattle.layouts.specs.Answers.{only};
ghost use Rattle.layouts.specs.Layouts.{list_size, listed};
ghost use Rattle.layouts.specs.Listed.{listed_laws};

use crate::{Kind, Layout};
use refusals::Refusal;
use sums::is_among;

#[derive(Clone, Copy)]
pub struct Listing {
    count: usize,
    ghost sized: { (1 ≤ count) × (count ≤ 1023) },
}

impl Listing {
    pub fn new(count: usize) -> Result<Listing, Refusal>
        ensures { MatchResult result (λ l. (l.count ≡ count) × (list_size count ≡ true)) (λ e. (e ≡ LayoutSize) × (list_size count ≡ false)) }
    {
        if !(1..=1023).contains(&count) {
            return Err(Refusal::LayoutSize);
        }
        Ok(Listing { count })
    }

    // The first where the cell is a leaf, and the second where it is the total.
    fn choose<T: Copy>(&self, cell: usize, leaf: T, total: T) -> Option<T>
        ensures { result ≡ only (nat_lt cell (self.now.count + 1)) (cond (nat_lt cell self.now.count) leaf total) }
    {
        if cell > self.count {
            return None;
        }
        Some(if cell < self.count { leaf } else { total })
    }
}

impl Layout for Listing {
    ghost shape = { λ l. listed l.count };

    ghost lawful = { λ x. listed_laws x.count };

    fn cells(&self) -> usize {
        self.count + 1
    }

    fn relations(&self) -> usize {
        2
    }

    fn kind(&self, cell: usize) -> Option<Kind> {
        self.choose(cell, Kind::Leaf, Kind::Total)
    }

    fn leaves(&self, cell: usize) -> Option<usize> {
        self.choose(cell, 0, 1)
    }

    fn enters(&self, cell: usize) -> Option<usize> {
        self.choose(cell, 1, 0)
    }

    fn counts(&self, cell: usize, leaf: usize) -> Option<bool> {
        if cell > self.count || leaf >= self.count {
            return None;
        }
        Some(is_among(cell, &[leaf, self.count]))
    }
}
