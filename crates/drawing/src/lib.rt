// Drawing one glyph onto any screen: from its picture on a page of the atlas, or plainly, without one.
#![tactic(auto)]

mod enclosed;
pub mod from_atlas;
pub mod plain;
pub mod style;
