// A join style as a word, shown and read.
ghost use Rattle.std.specs.Prelude.{◌≡◌, Some, codes};
ghost use Rattle.std.specs.Result.{result_ok};
ghost use Rattle.glyph_key.specs.Joins.{join_word, join_named};

use crate::key::Join;
use std::error::Error;
use std::fmt;
use std::str::FromStr;

// A word that names no join style.
#[derive(Clone, Copy, Debug, PartialEq, Eq, Hash)]
pub struct UnknownJoin;

impl fmt::Display for Join {
    ghost output = { λ join. Some (join_word join) };

    fn fmt<W: fmt::Write>(&self, f: &mut fmt::Formatter<W>) -> fmt::Result {
        f.write_str(match self {
            Join::Bevel => "bevel",
            Join::Miter => "miter",
            Join::Round => "round",
        })
    }
}

impl FromStr for Join {
    type Err = UnknownJoin;

    ghost from_str_gives = { λ word r. result_ok r ≡ join_named word };

    fn from_str(word: &str) -> Result<Join, UnknownJoin> {
        match word {
            "bevel" => Ok(Join::Bevel),
            "miter" => Ok(Join::Miter),
            "round" => Ok(Join::Round),
            _ => Err(UnknownJoin),
        }
    }
}

impl fmt::Display for UnknownJoin {
    ghost output = { λ _. Some (codes "no join style has this name") };

    fn fmt<W: fmt::Write>(&self, f: &mut fmt::Formatter<W>) -> fmt::Result {
        f.write_str("no join style has this name")
    }
}

impl Error for UnknownJoin {}
