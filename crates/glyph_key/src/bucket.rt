// The quarter-pixel bucket of a fraction, and narrowing to f32.
ghost use Rattle.std.specs.Prelude.{◌≡◌, not, T};
ghost use Rattle.std.specs.Float.Ieee as Ieee;
ghost use Rattle.glyph_key.specs.Bucket.{near_of, bucket_of, WithinAnEighth, ToNearest};
ghost use Rattle.glyph_key.specs.Steps.{fraction, turned, quarters_by_ieee, near_by_ieee, by_ieee};
ghost use Rattle.glyph_key.specs.Keys.{narrowed};

use std::num::{nearest_f64_to_f32, saturating_f32_to_u8};

// Buckets of a pixel's width for outlines.
const SUBPIXEL_BUCKETS: u8 = 4;

// The f32 number that is multiplied by 4: the fractional part, and 1.0 more where that is negative.
fn reduce(frac: f32) -> f32
    ensures { result ≡ turned (fraction frac) }
{
    let part = frac.fract();
    if part < 0.0 { part + 1.0 } else { part }
}

fn in_quarters(frac: f32) -> f32
    ensures { result ≡ quarters_by_ieee frac }
{
    (reduce(frac) * 4.0).round()
}

// 0 to 4.
fn nearest_quarter(frac: f32) -> u8
    ensures steps { result ≡ near_by_ieee frac }
    ensures value { result ≡ near_of frac }
    ensures nearest { WithinAnEighth }
    ensures rounding { ToNearest }
{
    saturating_f32_to_u8(in_quarters(frac))
}

// Near the next pixel the last bucket is taken: bucket 0 would need the whole coordinate moved on as well, and show the glyph most of a pixel too far left.
pub fn quantize_subpixel(frac: f32) -> u8
    ensures steps { result ≡ by_ieee frac }
    ensures value { result ≡ bucket_of frac }
    ensures nearest { WithinAnEighth }
    ensures rounding { ToNearest }
{
    nearest_quarter(frac).min(SUBPIXEL_BUCKETS - 1)
}

// The bits of the nearest f32, ties to even.
pub(crate) fn narrow_bits(x: f64) -> u32
    requires { T (not (Ieee.is_nan x)) }
    ensures { result ≡ narrowed x }
{
    nearest_f64_to_f32(x).to_bits()
}
