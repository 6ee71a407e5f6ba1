// The office: all its acts from the contributions to the last answer, and the law over them.
#![tactic(auto)]

pub mod acts;
mod performing;
pub mod running;
