// Making keys.
ghost use Rattle.std.specs.Prelude.{◌≡◌, IfOk};
ghost use Rattle.glyph_key.specs.Bucket.{bucket_of};
ghost use Rattle.glyph_key.specs.Keys.{unreadable, unreadable_embolden, bits_for, axes_for, values_told, Keyed};

use crate::bucket::{narrow_bits, quantize_subpixel};
use crate::fault::KeyFault;
use crate::key::{Axes, FontEmbolden, GlyphCacheKey, KeyBits, KeyParts, MOST_AXES};

// The bucket of every bitmap. Outlines have 0 to 3, so that no outline's key is a bitmap's.
const SUBPIXEL_BITMAP: u8 = 5;

impl FontEmbolden {
    fn is_unreadable(self) -> bool
        ensures { result ≡ unreadable_embolden self }
    {
        self.amount_x.is_nan()
            || self.amount_y.is_nan()
            || self.miter_limit.is_nan()
            || self.tolerance.is_nan()
    }
}

impl KeyParts {
    fn is_unreadable(self) -> bool
        ensures { result ≡ unreadable self }
    {
        self.size.is_nan() || self.embolden.is_unreadable()
    }

    fn bits(self) -> Result<KeyBits, KeyFault>
        ensures { result ≡ bits_for self }
    {
        if self.is_unreadable() {
            return Err(KeyFault::NotANumber);
        }
        Ok(KeyBits {
            size: self.size.to_bits(),
            embolden_x: narrow_bits(self.embolden.amount_x),
            embolden_y: narrow_bits(self.embolden.amount_y),
            miter_limit: narrow_bits(self.embolden.miter_limit),
            tolerance: narrow_bits(self.embolden.tolerance),
        })
    }
}

impl Axes {
    fn of(values: &[i16]) -> Result<Axes, KeyFault>
        ensures answer { result ≡ axes_for values.now }
        ensures told { IfOk result (λ axes. values_told axes ≡ values.now) }
    {
        if values.len() > MOST_AXES {
            return Err(KeyFault::TooManyAxes);
        }
        let mut places = [0; MOST_AXES];
        places[..values.len()].copy_from_slice(values);
        Ok(Axes {
            count: values.len() as u8,
            places,
        })
    }
}

fn build(parts: KeyParts, subpixel_x: u8, var_coords: &[i16]) -> Result<GlyphCacheKey, KeyFault>
    ensures { Keyed parts subpixel_x var_coords.now result }
{
    let axes = Axes::of(var_coords)?;
    let bits = parts.bits()?;
    Ok(GlyphCacheKey {
        font_id: parts.font_id,
        font_index: parts.font_index,
        glyph_id: parts.glyph_id,
        bits,
        hinted: parts.hinted,
        subpixel_x,
        context_color_packed: parts.context_color_packed,
        join: parts.embolden.join,
        axes,
    })
}

impl GlyphCacheKey {
    // The key of an outline at a fraction of a pixel: near fractions share a bucket, and so a picture.
    pub fn for_outline(
        parts: KeyParts,
        fractional_x: f32,
        var_coords: &[i16],
    ) -> Result<GlyphCacheKey, KeyFault>
        ensures { Keyed parts (bucket_of fractional_x) var_coords.now result }
    {
        build(parts, quantize_subpixel(fractional_x), var_coords)
    }

    pub fn for_bitmap(parts: KeyParts, var_coords: &[i16]) -> Result<GlyphCacheKey, KeyFault>
        ensures { Keyed parts 5 var_coords.now result }
    {
        build(parts, SUBPIXEL_BITMAP, var_coords)
    }
}
