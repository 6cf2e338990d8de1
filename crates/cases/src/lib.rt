// The worked cases of keys, transforms, metrics, lists and cells: as one statement on the definitions, and run by the code.
#![tactic(auto)]

ghost use Rattle.std.specs.Prelude.{◌≡◌, true, Some, Ok};
ghost use Rattle.shapes.specs.Answers.{refused_with};
ghost use Rattle.raster.specs.Faults.{raster_number};
ghost use Rattle.cases.specs.Cases.{Buckets, Transforms, Sizes, Cases, outline};

use crate::cells::cells_hold;
use glyph_key::bucket::quantize_subpixel;
use raster::fault::RasterFault;
use raster::glyph::{Glyph, GlyphOutline, RasterMetrics};
use raster::metrics::calculate_raster_metrics;
use raster::transform::supports_atlas_caching;
use shapes::refusal::Refusal;
use shapes::{Affine, Path, Rect};

mod cells;

fn buckets_hold() -> bool
    ensures cases { Buckets }
    ensures run { result ≡ true }
{
    [
        quantize_subpixel(0.125),
        quantize_subpixel(0.875),
        quantize_subpixel(-0.25),
        quantize_subpixel(f32::NAN),
        quantize_subpixel(-0.37500003),
    ] == [1, 3, 3, 0, 3]
}

fn outline(x0: f64, y0: f64, x1: f64, y1: f64) -> Glyph
    ensures { result ≡ outline (record { x0 = x0; y0 = y0; x1 = x1; y1 = y1 }) }
{
    let bounds = Rect { x0, y0, x1, y1 };
    let path = Path { handle: 0, bounds };
    Glyph::Outline(GlyphOutline { path, scale: 1.0 })
}

// A skew of exactly 1/4096.
fn transforms_hold() -> bool
    ensures cases { Transforms }
    ensures run { result ≡ true }
{
    let skewed = Affine {
        b: 0.000244140625,
        d: -1.0,
        ..Affine::IDENTITY
    };
    supports_atlas_caching(skewed, outline(0.5, -2.0, 6.25, 7.5))
}

fn metrics(width: u16, height: u16, left: i16, top: i16) -> RasterMetrics
    ensures { result ≡ record { width = width; height = height; left = left; top = top } }
{
    RasterMetrics {
        width,
        height,
        left,
        top,
    }
}

fn is_metrics(answer: Result<RasterMetrics, RasterFault>, expected: RasterMetrics) -> bool
    ensures { answer ≡ Ok expected → result ≡ true }
{
    answer == Ok(expected)
}

fn is_refused(answer: Result<RasterMetrics, RasterFault>, number: u8) -> bool
    ensures { refused_with raster_number answer ≡ Some number → result ≡ true }
{
    answer.is_err_and(|fault| fault.number() == number)
}

// A letter, and the widest picture that there can be and one pixel more.
fn sizes_hold() -> bool
    ensures cases { Sizes }
    ensures run { result ≡ true }
{
    let letter = calculate_raster_metrics(outline(0.5, -2.0, 6.25, 7.5));
    let widest = calculate_raster_metrics(outline(0.0, 0.0, 65532.0, 1.0));
    let wider = calculate_raster_metrics(outline(0.0, 0.0, 65533.0, 1.0));
    is_metrics(letter, metrics(8, 10, 0, -8))
        && is_metrics(widest, metrics(65533, 1, 0, -1))
        && is_refused(wider, 5)
}

// The cases of the definitions, and that the code gives them.
pub fn cases_hold() -> bool
    ensures cases { Cases }
    ensures run { result ≡ true }
{
    buckets_hold() && transforms_hold() && sizes_hold() && cells_hold()
}
