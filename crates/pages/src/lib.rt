// The commands that wait for each page, and whoever takes them.
#![tactic(auto)]

pub mod recorder;
pub mod recording;
pub mod target;
pub mod targets;
