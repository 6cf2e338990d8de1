// Why a cache refuses, by number and in words.
ghost use Rattle.image_cache.specs.Faults.{cache_number};

use shapes::refusal::Refusal;
use std::fmt;

#[derive(Clone, Copy, PartialEq, Eq)]
pub enum CacheFault {
    NotLive,
    Sizes,
    NoFit,
}

impl Refusal for CacheFault {
    ghost numbered = { cache_number };

    fn number(self) -> u8 {
        match self {
            CacheFault::NotLive => 9,
            CacheFault::Sizes => 11,
            CacheFault::NoFit => 14,
        }
    }
}

impl fmt::Display for CacheFault {
    fn fmt<W: fmt::Write>(&self, f: &mut fmt::Formatter<W>) -> fmt::Result {
        match *self {
            CacheFault::NotLive => f.write_str("no image is live under this id"),
            CacheFault::Sizes => f.write_str(
                "the sizes of the pages or their number are out of limits",
            ),
            CacheFault::NoFit => f.write_str("no page has room for an image of this size"),
        }
    }
}
