// An image cache of square cells of one size, eight by eight to a page.
#![tactic(auto)]

mod cells;
mod changes;
pub mod grid;
pub mod images;
mod opens;
mod places;
mod words;
