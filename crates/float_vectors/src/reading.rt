// Reading a vector from a line: a word that says what is asked, then the numbers.
// A float is its bit pattern in hexadecimal, 8 digits for f32 and 16 for f64, and `nan` is the one NaN. A size in pixels is decimal.
use crate::vectors::{Shape, Vector};
use glyph_key::key::{FontEmbolden, Join, KeyParts};
use raster::glyph::{Glyph, GlyphBitmap, GlyphOutline};
use shapes::{Affine, Color, Path, Pixmap, Rect};
use std::num::{f32_from_bits_with_nan, f64_from_bits_with_nan};
use std::str::{FromStr, SplitWhitespace};

const NO_RECT: Rect = Rect {
    x0: 0.0,
    y0: 0.0,
    x1: 0.0,
    y1: 0.0,
};

// A float that a word gives by its bit pattern.
trait ByPattern: Sized {
    // How many hexadecimal digits a bit pattern has.
    const DIGITS: usize;

    const NAN: Self;

    // None where the bits are no pattern, or that of a NaN.
    fn from_pattern(bits: u64) -> Option<Self>;
}

impl ByPattern for f32 {
    const DIGITS: usize = 8;

    const NAN: f32 = f32::NAN;

    fn from_pattern(bits: u64) -> Option<f32> {
        let x = f32_from_bits_with_nan(u32::try_from(bits).ok()?);
        if x.is_nan() { None } else { Some(x) }
    }
}

impl ByPattern for f64 {
    const DIGITS: usize = 16;

    const NAN: f64 = f64::NAN;

    fn from_pattern(bits: u64) -> Option<f64> {
        let x = f64_from_bits_with_nan(bits);
        if x.is_nan() { None } else { Some(x) }
    }
}

fn float_of<F: ByPattern>(word: &str) -> Option<F> {
    if word == "nan" {
        return Some(F::NAN);
    }
    if word.len() != F::DIGITS || word.starts_with('+') {
        return None;
    }
    F::from_pattern(u64::from_str_radix(word, 16).ok()?)
}

// What is read from the next words of a line; none where a word is missing or not understood.
trait FromWords: Sized {
    fn from_words(words: &mut SplitWhitespace<'_>) -> Option<Self>;
}

fn next<T: FromWords>(words: &mut SplitWhitespace<'_>) -> Option<T> {
    T::from_words(words)
}

impl FromWords for f32 {
    fn from_words(words: &mut SplitWhitespace<'_>) -> Option<f32> {
        float_of(words.next()?)
    }
}

impl FromWords for f64 {
    fn from_words(words: &mut SplitWhitespace<'_>) -> Option<f64> {
        float_of(words.next()?)
    }
}

impl FromWords for u16 {
    fn from_words(words: &mut SplitWhitespace<'_>) -> Option<u16> {
        words.next()?.parse().ok()
    }
}

impl FromWords for Rect {
    fn from_words(words: &mut SplitWhitespace<'_>) -> Option<Rect> {
        Some(Rect {
            x0: next(words)?,
            y0: next(words)?,
            x1: next(words)?,
            y1: next(words)?,
        })
    }
}

impl FromWords for Path {
    fn from_words(words: &mut SplitWhitespace<'_>) -> Option<Path> {
        Some(Path {
            handle: 0,
            bounds: next(words)?,
        })
    }
}

impl FromWords for Color {
    fn from_words(words: &mut SplitWhitespace<'_>) -> Option<Color> {
        Some(Color {
            r: next(words)?,
            g: next(words)?,
            b: next(words)?,
            a: next(words)?,
        })
    }
}

impl FromWords for Affine {
    fn from_words(words: &mut SplitWhitespace<'_>) -> Option<Affine> {
        Some(Affine {
            a: next(words)?,
            b: next(words)?,
            c: next(words)?,
            d: next(words)?,
            e: next(words)?,
            f: next(words)?,
        })
    }
}

// A transform that shifts nothing, of which only the first four numbers are written.
struct Linear(Affine);

impl FromWords for Linear {
    fn from_words(words: &mut SplitWhitespace<'_>) -> Option<Linear> {
        Some(Linear(Affine {
            a: next(words)?,
            b: next(words)?,
            c: next(words)?,
            d: next(words)?,
            e: 0.0,
            f: 0.0,
        }))
    }
}

impl FromWords for GlyphOutline {
    fn from_words(words: &mut SplitWhitespace<'_>) -> Option<GlyphOutline> {
        Some(GlyphOutline {
            path: next(words)?,
            scale: next(words)?,
        })
    }
}

impl FromWords for GlyphBitmap {
    fn from_words(words: &mut SplitWhitespace<'_>) -> Option<GlyphBitmap> {
        Some(GlyphBitmap {
            pixmap: Pixmap {
                handle: 0,
                width: next(words)?,
                height: next(words)?,
            },
            area: NO_RECT,
        })
    }
}

// A glyph of which only the kind counts: `o` is an outline, `b` a bitmap.
impl FromWords for Glyph {
    fn from_words(words: &mut SplitWhitespace<'_>) -> Option<Glyph> {
        match words.next()? {
            "o" => Some(Glyph::Outline(GlyphOutline {
                path: Path {
                    handle: 0,
                    bounds: NO_RECT,
                },
                scale: 1.0,
            })),
            "b" => Some(Glyph::Bitmap(GlyphBitmap {
                pixmap: Pixmap {
                    handle: 0,
                    width: 0,
                    height: 0,
                },
                area: NO_RECT,
            })),
            _ => None,
        }
    }
}

impl FromWords for FontEmbolden {
    fn from_words(words: &mut SplitWhitespace<'_>) -> Option<FontEmbolden> {
        Some(FontEmbolden {
            amount_x: next(words)?,
            amount_y: next(words)?,
            join: Join::Miter,
            miter_limit: next(words)?,
            tolerance: next(words)?,
        })
    }
}

// The size and the embolden numbers are read; the rest is the same in every vector.
impl FromWords for KeyParts {
    fn from_words(words: &mut SplitWhitespace<'_>) -> Option<KeyParts> {
        Some(KeyParts {
            font_id: 1,
            font_index: 0,
            glyph_id: 1,
            size: next(words)?,
            hinted: false,
            context_color_packed: 0,
            embolden: next(words)?,
        })
    }
}

impl FromWords for Shape {
    fn from_words(words: &mut SplitWhitespace<'_>) -> Option<Shape> {
        match words.next()? {
            "affine" => Some(Shape::Affine(next(words)?)),
            "rect" => Some(Shape::Rect(next(words)?)),
            "path" => Some(Shape::Path(next(words)?)),
            "color" => Some(Shape::Color(next(words)?)),
            _ => None,
        }
    }
}

impl FromWords for Vector {
    fn from_words(words: &mut SplitWhitespace<'_>) -> Option<Vector> {
        match words.next()? {
            "bucket" => Some(Vector::Bucket(next(words)?)),
            "narrow" => Some(Vector::Narrow(next(words)?, next(words)?)),
            "metrics" => Some(Vector::Metrics(next(words)?)),
            "bitmap" => Some(Vector::Bitmap(next(words)?)),
            "supports" => {
                let kind = next(words)?;
                let Linear(transform) = next(words)?;
                Some(Vector::Supports(kind, transform))
            }
            "finite" => Some(Vector::Finite(next(words)?)),
            _ => None,
        }
    }
}

// A line with a word that is missing, left over or not understood.
#[derive(Clone, Copy, Debug, PartialEq, Eq)]
pub struct Unreadable;

impl FromStr for Vector {
    type Err = Unreadable;

    fn from_str(line: &str) -> Result<Vector, Unreadable> {
        let mut words = line.split_whitespace();
        let vector = next(&mut words).ok_or(Unreadable)?;
        match words.next() {
            None => Ok(vector),
            Some(_) => Err(Unreadable),
        }
    }
}
