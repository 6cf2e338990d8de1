// The size of a glyph's picture and its bearings.
ghost use Rattle.std.specs.Prelude.{◌≡◌, ◌&&◌, T, pos, ◌+ℤ◌, neg_ℤ};
ghost use Rattle.std.specs.Int.Signed.{le_z};
ghost use Rattle.std.specs.Float.{float_is_finite};
ghost use Rattle.std.specs.Int.{saturate_to_bits};
ghost use Rattle.floats.specs.Units.{units_of, floor_of, ceil_of};
ghost use Rattle.shapes.specs.Numbers.{finite_rect, times};
ghost use Rattle.raster.specs.declared.glyph.Glyph.TheVariants.{Outline, Bitmap};
ghost use Rattle.raster.specs.Cover.{Measured};
ghost use Rattle.raster.specs.Metric.{extent_of, bearing_of, from_edges, from_box, in_order};

use crate::fault::RasterFault;
use crate::glyph::{Glyph, GlyphBitmap, GlyphOutline, RasterMetrics};
use shapes::Rect;
use std::num::saturating_f64_to_i32;

// The widest and highest picture: a slot has one pixel more on every side, in 16 bits.
const LARGEST: u16 = 65533;

// A width or a height.
fn extent(size: i64) -> Result<u16, RasterFault>
    ensures { result ≡ extent_of size }
{
    match u16::try_from(size) {
        Ok(pixels) if pixels <= LARGEST => Ok(pixels),
        _ => Err(RasterFault::Metrics),
    }
}

fn bearing(edge: i32) -> Result<i16, RasterFault>
    ensures { result ≡ bearing_of edge }
{
    i16::try_from(edge).map_err(|_| RasterFault::Metrics)
}

// The edges of a picture in whole pixels, y downward.
#[derive(Clone, Copy)]
struct Edges {
    left: i32,
    right: i32,
    top: i32,
    bottom: i32,
}

impl Edges {
    // Outward to whole pixels, y turned downward. Cut to 32 bits; what is cut is far out of every range above.
    fn around(b: Rect) -> Edges
        requires { T (finite_rect b) }
        ensures left { result.left ≡ saturate_to_bits 31 (floor_of (units_of b.x0)) }
        ensures right { result.right ≡ saturate_to_bits 31 (ceil_of (units_of b.x1)) }
        ensures top { result.top ≡ saturate_to_bits 31 (floor_of (neg_ℤ (units_of b.y1))) }
        ensures bottom { result.bottom ≡ saturate_to_bits 31 (ceil_of (neg_ℤ (units_of b.y0))) }
    {
        Edges {
            left: saturating_f64_to_i32(b.x0.floor()),
            right: saturating_f64_to_i32(b.x1.ceil()),
            top: saturating_f64_to_i32((-b.y1).floor()),
            bottom: saturating_f64_to_i32((-b.y0).ceil()),
        }
    }

    // One pixel more to the right, since a picture is shifted by up to three quarters of one.
    fn metrics(self) -> Result<RasterMetrics, RasterFault>
        ensures { result ≡ from_edges self.left (self.right +ℤ pos 1) self.top self.bottom }
    {
        let width = extent(i64::from(self.right) + 1 - i64::from(self.left))?;
        let height = extent(i64::from(self.bottom) - i64::from(self.top))?;
        let left = bearing(self.left)?;
        let top = bearing(self.top)?;
        Ok(RasterMetrics {
            width,
            height,
            left,
            top,
        })
    }
}

// Finite, and not inverted.
fn is_upright(b: Rect) -> bool
    ensures { result ≡ finite_rect b && in_order b }
{
    b.is_finite() && b.x0 <= b.x1 && b.y0 <= b.y1
}

fn from_box(b: Rect) -> Result<RasterMetrics, RasterFault>
    ensures { result ≡ from_box b }
{
    if !is_upright(b) {
        return Err(RasterFault::Metrics);
    }
    Edges::around(b).metrics()
}

fn scaled(b: Rect, scale: f64) -> Rect
    ensures { result ≡ times b scale }
{
    Rect {
        x0: b.x0 * scale,
        y0: b.y0 * scale,
        x1: b.x1 * scale,
        y1: b.y1 * scale,
    }
}

fn of_outline(outline: GlyphOutline) -> Result<RasterMetrics, RasterFault>
    ensures { Measured (Outline outline) result }
{
    from_box(scaled(outline.path.bounds, outline.scale))
}

fn of_bitmap(bitmap: GlyphBitmap) -> Result<RasterMetrics, RasterFault>
    ensures { Measured (Bitmap bitmap) result }
{
    let pixmap = bitmap.pixmap;
    let width = extent(i64::from(pixmap.width))?;
    let height = extent(i64::from(pixmap.height))?;
    Ok(RasterMetrics {
        width,
        height,
        left: 0,
        top: 0,
    })
}

// The size of a glyph's picture, or why it can have none.
pub fn calculate_raster_metrics(glyph: Glyph) -> Result<RasterMetrics, RasterFault>
    ensures { Measured glyph result }
{
    match glyph {
        Glyph::Outline(outline) => of_outline(outline),
        Glyph::Bitmap(bitmap) => of_bitmap(bitmap),
    }
}
