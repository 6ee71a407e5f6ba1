// The sheet: the rows of a table, and the acts of an office on them.
#![tactic(auto)]

mod cell;
mod events;
mod held;
mod inner;
mod looking;
mod making;
mod meeting;
mod printing;
mod searching;
mod table;
mod trying;
mod withholding;
mod witnessing;

pub use held::Sheet;
