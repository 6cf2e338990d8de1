// What a glyph needs of an atlas page: the size of its picture, and whether its transform can use one.
#![tactic(auto)]

pub mod fault;
pub mod glyph;
pub mod metrics;
pub mod transform;
