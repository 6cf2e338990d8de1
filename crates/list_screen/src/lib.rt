// The screen that is a list of the calls it was sent.
#![tactic(auto)]

pub mod list;
pub mod screen;
