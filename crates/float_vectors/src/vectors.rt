// A test vector: a question to one of the libraries, with its numbers.
use glyph_key::key::KeyParts;
use raster::glyph::{Glyph, GlyphBitmap, GlyphOutline};
use shapes::{Affine, Color, Path, Rect};

#[derive(Clone, Copy)]
pub enum Shape {
    Affine(Affine),
    Rect(Rect),
    Path(Path),
    Color(Color),
}

#[derive(Clone, Copy)]
pub enum Vector {
    Bucket(f32),
    Narrow(Glyph, KeyParts),
    Metrics(GlyphOutline),
    Bitmap(GlyphBitmap),
    Supports(Glyph, Affine),
    Finite(Shape),
}
