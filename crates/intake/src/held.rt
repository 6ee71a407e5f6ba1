// An intake: the contributions entered so far, what a loader has read and seen of a deposit, and the memory of the table to be.
ghost use Rattle.std.specs.Prelude.{◌≡◌, ℕ, ◌<◌, ◌≤◌, true, vec_len, vec_capacity, slice_index};
ghost use Rattle.layouts.specs.Admission.{shape_of};
ghost use Rattle.layouts.specs.Shape.{is_leaf};
ghost use Rattle.readings.specs.Tables.{Fits};
ghost use Rattle.intake.specs.Chains.{held, leaf_list};

use crate::chains::Chains;
use layouts::memory::{Bench, Contribution, Row};
use layouts::network::Network;

#[derive(Drop)]
pub struct Intake<R> {
    pub(crate) rule: R,
    pub(crate) network: Network,
    pub(crate) chains: Chains,
    pub(crate) pending: Vec<Contribution>,
    pub(crate) seen: Vec<bool>,
    pub(crate) rows: Vec<Row>,
    pub(crate) bench: Bench,
    ghost room: { (2048 ≤ vec_capacity pending) × (vec_len seen ≡ 2048) },
    ghost leafy: { (i : ℕ) → i < vec_len chains.records → is_leaf (shape_of network) (slice_index (leaf_list (held chains.records.items)) i) ≡ true },
    ghost celled: { (vec_len chains.heads ≡ vec_len network.edges) × (vec_len rows ≡ vec_len network.edges) },
    ghost fits: { Fits network bench },
}
