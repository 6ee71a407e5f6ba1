// The layout that a settings line names.
ghost use Rattle.job.specs.Chosen.{shape_of};
ghost use Rattle.layouts.specs.Gridded.{grid_laws};
ghost use Rattle.layouts.specs.Listed.{listed_laws};
ghost use Rattle.job.specs.declared.chosen_layout.ChosenLayout.TheVariants.{Grid, Leaves};

use layouts::grid::Grid;
use layouts::listing::Listing;
use layouts::{Kind, Layout};

#[derive(Clone, Copy)]
pub enum ChosenLayout {
    Grid(Grid),
    Leaves(Listing),
}

impl Layout for ChosenLayout {
    ghost shape = { shape_of };

    ghost lawful = { elim [ Grid g ↦ grid_laws g.rows g.columns | Leaves l ↦ listed_laws l.count ] };

    fn cells(&self) -> usize {
        match self {
            ChosenLayout::Grid(l) => l.cells(),
            ChosenLayout::Leaves(l) => l.cells(),
        }
    }

    fn relations(&self) -> usize {
        match self {
            ChosenLayout::Grid(l) => l.relations(),
            ChosenLayout::Leaves(l) => l.relations(),
        }
    }

    fn kind(&self, cell: usize) -> Option<Kind> {
        match self {
            ChosenLayout::Grid(l) => l.kind(cell),
            ChosenLayout::Leaves(l) => l.kind(cell),
        }
    }

    fn leaves(&self, cell: usize) -> Option<usize> {
        match self {
            ChosenLayout::Grid(l) => l.leaves(cell),
            ChosenLayout::Leaves(l) => l.leaves(cell),
        }
    }

    fn enters(&self, cell: usize) -> Option<usize> {
        match self {
            ChosenLayout::Grid(l) => l.enters(cell),
            ChosenLayout::Leaves(l) => l.enters(cell),
        }
    }

    fn counts(&self, cell: usize, leaf: usize) -> Option<bool> {
        match self {
            ChosenLayout::Grid(l) => l.counts(cell, leaf),
            ChosenLayout::Leaves(l) => l.counts(cell, leaf),
        }
    }
}
