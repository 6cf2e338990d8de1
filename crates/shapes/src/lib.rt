// The plain values that everything above carries: transforms, boxes, paths, pixmaps, colours.
#![tactic(auto)]

ghost use Rattle.std.specs.Prelude.{◌≡◌};
ghost use Rattle.shapes.specs.Numbers.{finite_affine, finite_rect, finite_path, finite_color, color_of};

use std::num::f32_from_bits_with_nan;

pub mod refusal;

// Takes (x, y) to (ax + cy + e, bx + dy + f).
#[derive(Clone, Copy)]
pub struct Affine {
    pub a: f64,
    pub b: f64,
    pub c: f64,
    pub d: f64,
    pub e: f64,
    pub f: f64,
}

// A box or a rectangle.
#[derive(Clone, Copy)]
pub struct Rect {
    pub x0: f64,
    pub y0: f64,
    pub x1: f64,
    pub y1: f64,
}

// A path is a handle with its box; whoever draws it knows the curve behind the handle.
#[derive(Clone, Copy)]
pub struct Path {
    pub handle: u32,
    pub bounds: Rect,
}

// A picture in pixels, likewise by its handle.
#[derive(Clone, Copy)]
pub struct Pixmap {
    pub handle: u32,
    pub width: u16,
    pub height: u16,
}

#[derive(Clone, Copy)]
pub struct Color {
    pub r: f32,
    pub g: f32,
    pub b: f32,
    pub a: f32,
}

impl Affine {
    // Leaves every point where it is.
    pub const IDENTITY: Affine = Affine {
        a: 1.0,
        b: 0.0,
        c: 0.0,
        d: 1.0,
        e: 0.0,
        f: 0.0,
    };

    // Whether every number is finite: no NaN and no infinity.
    pub fn is_finite(self) -> bool
        ensures { result ≡ finite_affine self }
    {
        self.a.is_finite()
            && self.b.is_finite()
            && self.c.is_finite()
            && self.d.is_finite()
            && self.e.is_finite()
            && self.f.is_finite()
    }
}

impl Rect {
    pub fn is_finite(self) -> bool
        ensures { result ≡ finite_rect self }
    {
        self.x0.is_finite() && self.y0.is_finite() && self.x1.is_finite() && self.y1.is_finite()
    }
}

impl Path {
    pub fn is_finite(self) -> bool
        ensures { result ≡ finite_path self }
    {
        self.bounds.is_finite()
    }
}

impl Color {
    // From the bit patterns of red, green, blue and alpha; every pattern of a NaN is the one NaN.
    pub fn from_bits(r: u32, g: u32, b: u32, a: u32) -> Color
        ensures { result ≡ color_of r g b a }
    {
        Color {
            r: f32_from_bits_with_nan(r),
            g: f32_from_bits_with_nan(g),
            b: f32_from_bits_with_nan(b),
            a: f32_from_bits_with_nan(a),
        }
    }

    pub fn is_finite(self) -> bool
        ensures { result ≡ finite_color self }
    {
        self.r.is_finite() && self.g.is_finite() && self.b.is_finite() && self.a.is_finite()
    }
}
