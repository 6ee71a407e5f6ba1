// From contributions to the figures and needs of a table.
#![tactic(auto)]

mod chains;
mod deposit;
pub mod entering;
pub mod held;
mod loading;
pub mod settled;
mod settling;
