// What the atlas makes of a letter: drawn from a slot, drawn plainly, or refused.
ghost use Rattle.std.specs.Prelude.{◌≡◌};
ghost use Rattle.try_page.specs.declared.verdict.LetterFault.TheVariants.{Key, Raster};
ghost use Rattle.shapes.specs.Answers.{refused_with};
ghost use Rattle.glyph_key.specs.Faults.{key_number};
ghost use Rattle.glyph_key.specs.Keys.{key_refusal};
ghost use Rattle.try_page.specs.Verdicts.{fault_number, finite_glyph, letter_key, verdict_of, letter_refusal};

use crate::letter::Letter;
use glyph_key::fault::KeyFault;
use glyph_key::key::GlyphCacheKey;
use raster::fault::RasterFault;
use raster::glyph::{Glyph, RasterMetrics};
use raster::metrics::calculate_raster_metrics;
use raster::transform::supports_atlas_caching;
use shapes::refusal::Refusal;
use std::fmt;

// A letter that is drawn plainly needs no slot, so that its metrics are not asked for.
#[derive(Clone, Copy)]
pub enum Verdict {
    Atlas(GlyphCacheKey, RasterMetrics),
    Plain(GlyphCacheKey),
}

#[derive(Clone, Copy)]
pub enum LetterFault {
    NotFinite,
    Key(KeyFault),
    Raster(RasterFault),
}

impl Refusal for LetterFault {
    ghost numbered = { fault_number };

    fn number(self) -> u8 {
        match self {
            LetterFault::NotFinite => 1,
            LetterFault::Key(fault) => fault.number(),
            LetterFault::Raster(fault) => fault.number(),
        }
    }
}

impl From<KeyFault> for LetterFault {
    ghost from_gives = { λ e r. r ≡ Key e };

    fn from(fault: KeyFault) -> LetterFault {
        LetterFault::Key(fault)
    }
}

impl From<RasterFault> for LetterFault {
    ghost from_gives = { λ e r. r ≡ Raster e };

    fn from(fault: RasterFault) -> LetterFault {
        LetterFault::Raster(fault)
    }
}

impl fmt::Display for LetterFault {
    fn fmt<W: fmt::Write>(&self, f: &mut fmt::Formatter<W>) -> fmt::Result {
        match *self {
            LetterFault::NotFinite => {
                f.write_str("a number of the transform, scale, box or area is not finite")
            }
            LetterFault::Key(fault) => write!(f, "{fault}"),
            LetterFault::Raster(fault) => write!(f, "{fault}"),
        }
    }
}

fn is_finite_glyph(glyph: Glyph) -> bool
    ensures { result ≡ finite_glyph glyph }
{
    match glyph {
        Glyph::Outline(outline) => outline.path.is_finite() && outline.scale.is_finite(),
        Glyph::Bitmap(bitmap) => bitmap.area.is_finite(),
    }
}

impl<'a> Letter<'a> {
    fn key(&self) -> Result<GlyphCacheKey, KeyFault>
        ensures answer { result ≡ letter_key self.now }
        ensures number { refused_with key_number result ≡ key_refusal self.now.parts self.now.axes.items }
    {
        let axes = self.axes.as_slice();
        match self.glyph {
            Glyph::Outline(_) => GlyphCacheKey::for_outline(self.parts, self.fraction, axes),
            Glyph::Bitmap(_) => GlyphCacheKey::for_bitmap(self.parts, axes),
        }
    }

    pub fn verdict(&self) -> Result<Verdict, LetterFault>
        ensures answer { result ≡ verdict_of self.now }
        ensures number { refused_with fault_number result ≡ letter_refusal self.now }
    {
        let key = self.key()?;
        if !(self.transform.is_finite() && is_finite_glyph(self.glyph)) {
            return Err(LetterFault::NotFinite);
        }
        if !supports_atlas_caching(self.transform, self.glyph) {
            return Ok(Verdict::Plain(key));
        }
        let metrics = calculate_raster_metrics(self.glyph)?;
        Ok(Verdict::Atlas(key, metrics))
    }
}
