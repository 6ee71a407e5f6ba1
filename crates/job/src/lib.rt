// The program's job on bytes: from a settings line and a deposit to a page.
#![tactic(auto)]

pub mod choosing;
pub mod chosen_layout;
pub mod chosen_rule;
pub mod suppressing;
