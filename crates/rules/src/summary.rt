// What is kept of the amounts that were told: their count, their sum and the three largest.
ghost use Rattle.std.specs.Prelude.{◌+◌, ◌*◌, ◌≤◌};

#[derive(Clone, Copy)]
pub struct Summary {
    pub total: u64,
    pub first: u64,
    pub second: u64,
    pub third: u64,
    pub count: usize,
    ghost ok: { (count ≤ 2048) × (total ≤ count * 1000000000) × (first + second + third ≤ total) },
}
