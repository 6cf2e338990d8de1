// The present tick, and how many ticks back the last use of an entry may lie.
#[derive(Clone, Copy)]
pub(crate) struct AgeLimit {
    pub(crate) tick: u64,
    pub(crate) age: u64,
}
