// What commands and calls carry.
use shapes::{Affine, Color, Path, Pixmap, Rect};

// A colour, or a gradient by its handle.
#[derive(Clone, Copy)]
pub enum AtlasPaint {
    Solid(Color),
    Gradient(u32),
}

// How a layer is mixed and composed with what lies below it: two numbers that only the screen knows the meaning of.
#[derive(Clone, Copy)]
pub struct BlendMode {
    pub mix: u8,
    pub compose: u8,
}

// One command, as a page of the atlas and every sink takes it.
#[derive(Clone, Copy)]
pub enum AtlasCommand {
    SetTransform(Affine),
    SetPaint(AtlasPaint),
    SetPaintTransform(Affine),
    FillPath(Path),
    FillRect(Rect),
    PushClipLayer(Path),
    PushClipPath(Path),
    PushClipRect(Rect),
    PushBlendLayer(BlendMode),
    PopLayer,
    PopClipPath,
}

#[derive(Clone, Copy)]
pub enum ImageQuality {
    Low,
    Medium,
}

// A pixmap, or a page of the atlas by its number.
#[derive(Clone, Copy)]
pub enum ImageSource {
    OfPixmap(Pixmap),
    OfAtlas(u32),
}

#[derive(Clone, Copy)]
pub struct PaintImage {
    pub source: ImageSource,
    pub quality: ImageQuality,
}
