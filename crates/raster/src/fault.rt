// Why a glyph has no picture of its own, by number and in words.
ghost use Rattle.raster.specs.Faults.{raster_number};

use shapes::refusal::Refusal;
use std::fmt;

#[derive(Clone, Copy, PartialEq, Eq)]
pub enum RasterFault {
    Metrics,
}

impl Refusal for RasterFault {
    ghost numbered = { raster_number };

    fn number(self) -> u8 {
        match self {
            RasterFault::Metrics => 5,
        }
    }
}

impl fmt::Display for RasterFault {
    fn fmt<W: fmt::Write>(&self, f: &mut fmt::Formatter<W>) -> fmt::Result {
        match *self {
            RasterFault::Metrics => {
                f.write_str(
                    "the box is inverted, or no width, height and bearings in range come of it",
                )
            }
        }
    }
}
