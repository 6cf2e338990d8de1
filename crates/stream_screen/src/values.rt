// What calls carry, as bytes.
ghost use Rattle.std.specs.Prelude.{[], ◌∷◌};
ghost use Rattle.stream_screen.specs.Stream.{affine_bytes, rect_bytes, path_bytes, color_bytes, blend_bytes, paint_bytes, quality_byte, picture_bytes, tint_bytes};

use crate::encode::Encode;
use crate::writer::Writer;
use interface::call::Picture;
use interface::values::{AtlasPaint, BlendMode, ImageQuality};
use shapes::{Affine, Color, Path, Rect};

impl Encode for Affine {
    ghost bytes = { affine_bytes };

    fn encode(self, writer: &mut Writer) {
        [self.a, self.b, self.c, self.d, self.e, self.f].encode(writer);
    }
}

impl Encode for Rect {
    ghost bytes = { rect_bytes };

    fn encode(self, writer: &mut Writer) {
        [self.x0, self.y0, self.x1, self.y1].encode(writer);
    }
}

impl Encode for Path {
    ghost bytes = { path_bytes };

    fn encode(self, writer: &mut Writer) {
        (self.handle, self.bounds).encode(writer);
    }
}

impl Encode for Color {
    ghost bytes = { color_bytes };

    fn encode(self, writer: &mut Writer) {
        [self.r, self.g, self.b, self.a].encode(writer);
    }
}

impl Encode for BlendMode {
    ghost bytes = { blend_bytes };

    fn encode(self, writer: &mut Writer) {
        [self.mix, self.compose].encode(writer);
    }
}

impl Encode for ImageQuality {
    ghost bytes = { λ q. quality_byte q ∷ [] };

    fn encode(self, writer: &mut Writer) {
        let byte: u8 = match self {
            ImageQuality::Low => 0,
            ImageQuality::Medium => 1,
        };
        byte.encode(writer);
    }
}

// Where a value may be one of several, a byte says first which it is.
impl Encode for AtlasPaint {
    ghost bytes = { paint_bytes };

    fn encode(self, writer: &mut Writer) {
        match self {
            AtlasPaint::Solid(color) => (0u8, color).encode(writer),
            AtlasPaint::Gradient(handle) => (1u8, handle).encode(writer),
        }
    }
}

impl Encode for Picture {
    ghost bytes = { picture_bytes };

    fn encode(self, writer: &mut Writer) {
        match self {
            Picture::PixmapHandle(handle, quality) => (0u8, handle, quality).encode(writer),
            Picture::AtlasPage(page, quality) => (1u8, page, quality).encode(writer),
        }
    }
}

// A tint.
impl Encode for Option<Color> {
    ghost bytes = { tint_bytes };

    fn encode(self, writer: &mut Writer) {
        match self {
            None => 0u8.encode(writer),
            Some(color) => (1u8, color).encode(writer),
        }
    }
}
