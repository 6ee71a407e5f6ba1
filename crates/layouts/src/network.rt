// A layout's answers, asked once and kept.
ghost use Rattle.std.specs.Prelude.{◌≡◌, ℕ, ◌<◌, ◌≤◌, length, vec_len};
ghost use Rattle.layouts.specs.Copied.{copied, under_at};
ghost use Rattle.layouts.specs.Shape.{Laws};

// What a layout answers of one cell: the relation that it leaves, the one that it enters, whether it is a leaf, and under which cells
// it then counts.
#[derive(Drop)]
pub struct Edge {
    pub leaves: usize,
    pub enters: usize,
    pub leaf: bool,
    pub under: Vec<bool>,
}

// An edge for each cell. The laws of layouts hold of them.
#[derive(Drop)]
pub struct Network {
    pub relations: usize,
    pub edges: Vec<Edge>,
    ghost small: { (vec_len edges ≤ 512) × (relations ≤ 128) },
    ghost square: { (l : ℕ) → l < vec_len edges → length (under_at edges.items l) ≡ vec_len edges },
    ghost lawful: { Laws (copied relations edges.items) },
}
