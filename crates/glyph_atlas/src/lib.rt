// The atlas: which glyphs have a picture on a page, and what waits to be put there or cleared away.
#![tactic(auto)]

mod ageing;
pub mod atlas;
pub mod clearing;
pub mod config;
pub mod entry;
pub mod fault;
pub mod inserting;
mod limit;
pub mod lookup;
pub mod opens;
pub mod pending;
pub mod queueing;
pub mod replaying;
mod searching;
mod slots;
pub mod state;
mod table;
mod tables;
pub mod taking;
pub mod upkeep;
