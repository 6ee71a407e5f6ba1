// Readings of a table of which some cells are withheld, which cells they expose, and the engine that finds out.
#![tactic(auto)]

mod audit;
pub mod calls;
mod paths;
pub mod theorems;
mod trial;
pub mod trials;
mod witness;
