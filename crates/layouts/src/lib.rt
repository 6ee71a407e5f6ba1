// The shape of every table: what a layout means, the two layouts of the house, and a layout's answers kept once it is admitted.
#![tactic(auto)]

ghost use Rattle.std.specs.Prelude.{◌≡◌};
ghost use Rattle.layouts.specs.Answers.{counts_of, enters_of, kind_of, leaves_of};
ghost use Rattle.layouts.specs.Shape.{Laws, Shape};

pub mod admission;
pub mod admitted;
mod copying;
pub mod grid;
pub mod listing;
pub mod memory;
pub mod network;

#[derive(Clone, Copy, Debug, PartialEq, Eq)]
pub enum Kind {
    Leaf,
    Total,
}

// A layout answers by its meaning, the same question always alike, and its meaning obeys the laws of layouts.
pub trait Layout {
    ghost shape: { Self → Shape };

    fn cells(&self) -> usize
        ensures { result ≡ (shape self.now).cells };

    fn relations(&self) -> usize
        ensures { result ≡ (shape self.now).relations };

    fn kind(&self, cell: usize) -> Option<Kind>
        ensures { result ≡ kind_of (shape self.now) cell };

    // The relation that the cell leaves.
    fn leaves(&self, cell: usize) -> Option<usize>
        ensures { result ≡ leaves_of (shape self.now) cell };

    // The relation that the cell enters.
    fn enters(&self, cell: usize) -> Option<usize>
        ensures { result ≡ enters_of (shape self.now) cell };

    // Whether the leaf counts under the cell.
    fn counts(&self, cell: usize, leaf: usize) -> Option<bool>
        ensures { result ≡ counts_of (shape self.now) cell leaf };

    ghost lawful: { (x : Self) → Laws (shape x) };
}
