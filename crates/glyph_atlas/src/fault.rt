// Why the atlas refuses, by number and in words. A refusal of the cache or of metrics is carried whole.
ghost use Rattle.std.specs.Prelude.{◌≡◌};
ghost use Rattle.glyph_atlas.specs.declared.fault.AtlasFault.TheVariants.{Raster, Cache};
ghost use Rattle.glyph_atlas.specs.Faults.{atlas_number};

use image_cache::fault::CacheFault;
use raster::fault::RasterFault;
use shapes::refusal::Refusal;
use std::fmt;
use std::fmt::Display;

#[derive(Clone, Copy, PartialEq, Eq)]
pub enum AtlasFault {
    Raster(RasterFault),
    KeyHeld,
    ClearWaits,
    Waits,
    Full,
    QueueFull,
    LastTick,
    Cache(CacheFault),
}

impl Refusal for AtlasFault {
    ghost numbered = { atlas_number };

    fn number(self) -> u8 {
        match self {
            AtlasFault::Raster(fault) => fault.number(),
            AtlasFault::KeyHeld => 6,
            AtlasFault::ClearWaits => 7,
            AtlasFault::Waits => 8,
            AtlasFault::Full => 12,
            AtlasFault::QueueFull => 13,
            AtlasFault::LastTick => 16,
            AtlasFault::Cache(fault) => fault.number(),
        }
    }
}

impl From<RasterFault> for AtlasFault {
    ghost from_gives = { λ e r. r ≡ Raster e };

    fn from(e: RasterFault) -> AtlasFault {
        AtlasFault::Raster(e)
    }
}

impl From<CacheFault> for AtlasFault {
    ghost from_gives = { λ e r. r ≡ Cache e };

    fn from(e: CacheFault) -> AtlasFault {
        AtlasFault::Cache(e)
    }
}

impl fmt::Display for AtlasFault {
    fn fmt<W: fmt::Write>(&self, f: &mut fmt::Formatter<W>) -> fmt::Result {
        match *self {
            AtlasFault::Raster(fault) => fault.fmt(f),
            AtlasFault::KeyHeld => f.write_str("the atlas has an entry with this key"),
            AtlasFault::ClearWaits => f.write_str("a clear waits"),
            AtlasFault::Waits => f.write_str("a clear, an upload or a command waits"),
            AtlasFault::Full => f.write_str("the atlas holds 256 entries"),
            AtlasFault::QueueFull => f.write_str("the queue has no free place"),
            AtlasFault::LastTick => f.write_str("there is no tick after this one"),
            AtlasFault::Cache(fault) => fault.fmt(f),
        }
    }
}
