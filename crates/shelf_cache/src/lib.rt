// An image cache of shelves: an image goes to the first shelf that takes it, else to a new one on the first page with room.
#![tactic(auto)]

mod changes;
pub mod images;
pub mod opens;
mod places;
mod search;
pub mod shelf;
pub mod shelves;
mod tables;
