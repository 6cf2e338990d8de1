// The key of a glyph: what has to agree for two glyphs to share one picture.
#![tactic(auto)]

pub mod bucket;
pub mod fault;
pub mod join;
pub mod key;
pub mod making;
pub mod reading;
