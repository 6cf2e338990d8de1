// Which transforms can use a picture on a page.
ghost use Rattle.std.specs.Prelude.{◌≡◌, T};
ghost use Rattle.raster.specs.Steps.{nearly_straight, nearly_unit};
ghost use Rattle.raster.specs.Supported.{linear_finite, outline_ok, bitmap_ok, supported};

use crate::glyph::Glyph;
use shapes::Affine;

// 1/4096, and 1 less and more that: each is an f64, so that no comparison with them is rounded.
const NEARLY_ZERO: f64 = 0.000244140625;

const UNDER_ONE: f64 = 0.999755859375;

const OVER_ONE: f64 = 1.000244140625;

fn is_straight(x: f64) -> bool
    ensures { result ≡ nearly_straight x }
{
    x.abs() <= NEARLY_ZERO
}

fn is_unit(x: f64) -> bool
    ensures { result ≡ nearly_unit x }
{
    let size = x.abs();
    UNDER_ONE <= size && size <= OVER_ONE
}

fn is_linear_finite(t: Affine) -> bool
    ensures { result ≡ linear_finite t }
{
    t.a.is_finite() && t.b.is_finite() && t.c.is_finite() && t.d.is_finite()
}

fn supports_outline(t: Affine) -> bool
    requires { T (linear_finite t) }
    ensures { result ≡ outline_ok t }
{
    is_straight(t.b) & is_straight(t.c) & is_unit(t.a) & is_unit(t.d) & (0.0 < t.a) & (t.d < 0.0)
}

fn supports_bitmap(t: Affine) -> bool
    requires { T (linear_finite t) }
    ensures { result ≡ bitmap_ok t }
{
    is_straight(t.b) & is_straight(t.c) & t.a.is_sign_positive() & t.d.is_sign_positive()
}

// Whether a glyph under this transform can be copied from a picture on a page.
pub fn supports_atlas_caching(transform: Affine, glyph: Glyph) -> bool
    ensures { result ≡ supported glyph transform }
{
    is_linear_finite(transform)
        && match glyph {
            Glyph::Outline(_) => supports_outline(transform),
            Glyph::Bitmap(_) => supports_bitmap(transform),
        }
}
