// Packing pictures onto any image cache: written and proved once, for every kind of cache.
#![tactic(auto)]

pub mod place;
