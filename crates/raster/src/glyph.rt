// What is drawn, and the size of its picture.
use shapes::{Path, Pixmap, Rect};

// An outline is in the font's units, y upward; the scale takes it to pixels.
#[derive(Clone, Copy)]
pub struct GlyphOutline {
    pub path: Path,
    pub scale: f64,
}

// A bitmap is in pixels, y downward; the area is where it goes when it is drawn.
#[derive(Clone, Copy)]
pub struct GlyphBitmap {
    pub pixmap: Pixmap,
    pub area: Rect,
}

#[derive(Clone, Copy)]
pub enum Glyph {
    Outline(GlyphOutline),
    Bitmap(GlyphBitmap),
}

// The size of a picture in pixels, and its bearings: how far its left and top edges lie from the glyph's origin, x to the right and y downward.
#[derive(Clone, Copy, PartialEq, Eq)]
pub struct RasterMetrics {
    pub width: u16,
    pub height: u16,
    pub left: i16,
    pub top: i16,
}
