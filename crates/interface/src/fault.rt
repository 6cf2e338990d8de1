// Why a sink or a screen refuses, by number and in words.
ghost use Rattle.interface.specs.Faults.{sink_number};

use shapes::refusal::Refusal;
use std::fmt;

#[derive(Clone, Copy, PartialEq, Eq)]
pub enum SinkFault {
    NotLatest,
    NoPlace,
}

impl Refusal for SinkFault {
    ghost numbered = { sink_number };

    fn number(self) -> u8 {
        match self {
            SinkFault::NotLatest => 10,
            SinkFault::NoPlace => 15,
        }
    }
}

impl fmt::Display for SinkFault {
    fn fmt<W: fmt::Write>(&self, f: &mut fmt::Formatter<W>) -> fmt::Result {
        match *self {
            SinkFault::NotLatest => f.write_str(
                "this is not the latest state that the screen saved",
            ),
            SinkFault::NoPlace => f.write_str("too few places are free"),
        }
    }
}
