// Why there is no key, by number and in words.
ghost use Rattle.glyph_key.specs.Faults.{key_number};

use shapes::refusal::Refusal;
use std::fmt;

#[derive(Clone, Copy, PartialEq, Eq)]
pub enum KeyFault {
    TooManyAxes,
    NotANumber,
}

impl Refusal for KeyFault {
    ghost numbered = { key_number };

    fn number(self) -> u8 {
        match self {
            KeyFault::TooManyAxes => 2,
            KeyFault::NotANumber => 3,
        }
    }
}

impl fmt::Display for KeyFault {
    fn fmt<W: fmt::Write>(&self, f: &mut fmt::Formatter<W>) -> fmt::Result {
        match *self {
            KeyFault::TooManyAxes => f.write_str("more than eight axis values"),
            KeyFault::NotANumber => f.write_str("the size or an embolden number is not a number"),
        }
    }
}
