// What the libraries answer to a vector, and how the answer is written.
ghost use Rattle.std.specs.Prelude.{◌≡◌};
ghost use Rattle.float_vectors.specs.Asked.{bits_asked, finite_shape, answer_of};

use crate::vectors::{Shape, Vector};
use glyph_key::bucket::quantize_subpixel;
use glyph_key::fault::KeyFault;
use glyph_key::key::{GlyphCacheKey, KeyBits, KeyParts};
use raster::fault::RasterFault;
use raster::glyph::{Glyph, RasterMetrics};
use raster::metrics::calculate_raster_metrics;
use raster::transform::supports_atlas_caching;
use shapes::refusal::Refusal;
use std::fmt;

#[derive(Clone, Copy)]
pub enum Answer {
    Bucket(u8),
    Narrow(Result<KeyBits, KeyFault>),
    Metrics(Result<RasterMetrics, RasterFault>),
    Bitmap(Result<RasterMetrics, RasterFault>),
    Supports(bool),
    Finite(bool),
}

// The numbers of the key at fraction 0 and with no axis values.
fn narrowed(kind: Glyph, parts: KeyParts) -> Result<KeyBits, KeyFault>
    ensures { result ≡ bits_asked parts }
{
    let key = match kind {
        Glyph::Outline(_) => GlyphCacheKey::for_outline(parts, 0.0, &[])?,
        Glyph::Bitmap(_) => GlyphCacheKey::for_bitmap(parts, &[])?,
    };
    Ok(key.bits())
}

fn is_finite(shape: Shape) -> bool
    ensures { result ≡ finite_shape shape }
{
    match shape {
        Shape::Affine(affine) => affine.is_finite(),
        Shape::Rect(rect) => rect.is_finite(),
        Shape::Path(path) => path.is_finite(),
        Shape::Color(color) => color.is_finite(),
    }
}

pub fn answer_to(vector: Vector) -> Answer
    ensures { result ≡ answer_of vector }
{
    match vector {
        Vector::Bucket(fraction) => Answer::Bucket(quantize_subpixel(fraction)),
        Vector::Narrow(kind, parts) => Answer::Narrow(narrowed(kind, parts)),
        Vector::Metrics(outline) => {
            Answer::Metrics(calculate_raster_metrics(Glyph::Outline(outline)))
        }
        Vector::Bitmap(bitmap) => Answer::Bitmap(calculate_raster_metrics(Glyph::Bitmap(bitmap))),
        Vector::Supports(glyph, transform) => {
            Answer::Supports(supports_atlas_caching(transform, glyph))
        }
        Vector::Finite(shape) => Answer::Finite(is_finite(shape)),
    }
}

// The bit patterns of a key's numbers.
#[derive(Clone, Copy)]
struct Bits(KeyBits);

impl fmt::Display for Bits {
    fn fmt<W: fmt::Write>(&self, f: &mut fmt::Formatter<W>) -> fmt::Result {
        let KeyBits {
            size,
            embolden_x,
            embolden_y,
            miter_limit,
            tolerance,
        } = self.0;
        write!(
            f,
            "{size:08x} {embolden_x:08x} {embolden_y:08x} {miter_limit:08x} {tolerance:08x}"
        )
    }
}

// A picture's width and height, and where it lies.
#[derive(Clone, Copy)]
struct Metrics(RasterMetrics);

impl fmt::Display for Metrics {
    fn fmt<W: fmt::Write>(&self, f: &mut fmt::Formatter<W>) -> fmt::Result {
        let RasterMetrics {
            width,
            height,
            left,
            top,
        } = self.0;
        write!(f, "{width} {height} {left} {top}")
    }
}

// What a call answered: a value, or the number of the refusal.
#[derive(Clone, Copy)]
struct Outcome<T, E>(Result<T, E>);

impl<T: fmt::Display, E: Refusal + Copy> fmt::Display for Outcome<T, E> {
    fn fmt<W: fmt::Write>(&self, f: &mut fmt::Formatter<W>) -> fmt::Result {
        match &self.0 {
            Ok(value) => write!(f, "{value}"),
            Err(fault) => write!(f, "refused {}", fault.number()),
        }
    }
}

impl fmt::Display for Answer {
    fn fmt<W: fmt::Write>(&self, f: &mut fmt::Formatter<W>) -> fmt::Result {
        match *self {
            Answer::Bucket(bucket) => write!(f, "bucket {bucket}"),
            Answer::Narrow(bits) => write!(f, "narrow {}", Outcome(bits.map(Bits))),
            Answer::Metrics(metrics) => write!(f, "metrics {}", Outcome(metrics.map(Metrics))),
            Answer::Bitmap(metrics) => write!(f, "bitmap {}", Outcome(metrics.map(Metrics))),
            Answer::Supports(supports) => write!(f, "supports {supports}"),
            Answer::Finite(finite) => write!(f, "finite {finite}"),
        }
    }
}
