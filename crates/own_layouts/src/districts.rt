// Shops in districts of equal size: a total for each district, and one for all.
ghost use Rattle.std.specs.Prelude.{◌≡◌, ◌≤◌, true, false, MatchResult};
ghost use Rattle.refusals.specs.declared.Refusal.TheVariants.{LayoutSize};
ghost use Rattle.own_layouts.specs.Districts.{districts as districts_shape, districts_size};
ghost use Rattle.own_layouts.specs.Places.{place_of};
ghost use Rattle.own_layouts.specs.Lawful.{districts_laws};

use layouts::{Kind, Layout};
use refusals::Refusal;
use sums::is_among;

#[derive(Clone, Copy)]
pub struct Districts {
    count: usize,
    shops: usize,
    ghost sized: { (1 ≤ count) × (count ≤ 200) × (1 ≤ shops) × (shops ≤ 200) },
}

// Where a cell stands: a shop, by its district, or a total.
#[derive(Clone, Copy)]
enum Place {
    Shop(usize),
    DistrictTotal(usize),
    GrandTotal,
}

impl Districts {
    pub fn new(count: usize, shops: usize) -> Result<Districts, Refusal>
        ensures { MatchResult result (λ d. (d.count ≡ count) × (d.shops ≡ shops) × (districts_size count shops ≡ true)) (λ e. (e ≡ LayoutSize) × (districts_size count shops ≡ false)) }
    {
        if !(1..=200).contains(&count) || !(1..=200).contains(&shops) {
            return Err(Refusal::LayoutSize);
        }
        Ok(Districts { count, shops })
    }

    fn place(&self, cell: usize) -> Option<Place>
        ensures { result ≡ place_of self.now.count self.now.shops cell }
    {
        let shops = self.count * self.shops;
        if cell < shops {
            Some(Place::Shop(cell / self.shops))
        } else if cell < shops + self.count {
            Some(Place::DistrictTotal(cell - shops))
        } else if cell == shops + self.count {
            Some(Place::GrandTotal)
        } else {
            None
        }
    }
}

impl Layout for Districts {
    ghost shape = { λ d. districts_shape d.count d.shops };

    ghost lawful = { λ x. districts_laws x.count x.shops x.sized.2 };

    fn cells(&self) -> usize {
        self.count * self.shops + self.count + 1
    }

    fn relations(&self) -> usize {
        self.count + 2
    }

    fn kind(&self, cell: usize) -> Option<Kind> {
        match self.place(cell)? {
            Place::Shop(_) => Some(Kind::Leaf),
            _ => Some(Kind::Total),
        }
    }

    fn leaves(&self, cell: usize) -> Option<usize> {
        match self.place(cell)? {
            Place::Shop(_) => Some(self.count),
            Place::DistrictTotal(district) => Some(district),
            Place::GrandTotal => Some(self.count + 1),
        }
    }

    fn enters(&self, cell: usize) -> Option<usize> {
        match self.place(cell)? {
            Place::Shop(district) => Some(district),
            Place::DistrictTotal(_) => Some(self.count + 1),
            Place::GrandTotal => Some(self.count),
        }
    }

    fn counts(&self, cell: usize, leaf: usize) -> Option<bool> {
        if cell >= self.cells() {
            return None;
        }
        let Place::Shop(district) = self.place(leaf)? else {
            return None;
        };
        let shops = self.count * self.shops;
        Some(is_among(cell, &[leaf, shops + district, shops + self.count]))
    }
}
