// The four pages of an atlas together: what waits for them, and offering it to a page target.
#![tactic(auto)]

pub mod set;
pub mod sets;
