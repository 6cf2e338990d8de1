// What calls carry in words: the parts in their order, with a blank between two.
use crate::Words;
use interface::call::Picture;
use interface::values::{AtlasPaint, BlendMode, ImageQuality};
use shapes::{Affine, Color, Path, Rect};
use std::fmt;

impl fmt::Display for Words<Affine> {
    fn fmt<W: fmt::Write>(&self, f: &mut fmt::Formatter<W>) -> fmt::Result {
        let t = self.0;
        write!(
            f,
            "{} {} {} {} {} {}",
            Words(t.a),
            Words(t.b),
            Words(t.c),
            Words(t.d),
            Words(t.e),
            Words(t.f)
        )
    }
}

impl fmt::Display for Words<Rect> {
    fn fmt<W: fmt::Write>(&self, f: &mut fmt::Formatter<W>) -> fmt::Result {
        let r = self.0;
        write!(
            f,
            "{} {} {} {}",
            Words(r.x0),
            Words(r.y0),
            Words(r.x1),
            Words(r.y1)
        )
    }
}

impl fmt::Display for Words<Path> {
    fn fmt<W: fmt::Write>(&self, f: &mut fmt::Formatter<W>) -> fmt::Result {
        let Path { handle, bounds } = self.0;
        write!(f, "{handle} {}", Words(bounds))
    }
}

impl fmt::Display for Words<Color> {
    fn fmt<W: fmt::Write>(&self, f: &mut fmt::Formatter<W>) -> fmt::Result {
        let c = self.0;
        write!(
            f,
            "{} {} {} {}",
            Words(c.r),
            Words(c.g),
            Words(c.b),
            Words(c.a)
        )
    }
}

impl fmt::Display for Words<BlendMode> {
    fn fmt<W: fmt::Write>(&self, f: &mut fmt::Formatter<W>) -> fmt::Result {
        let BlendMode { mix, compose } = self.0;
        write!(f, "{mix} {compose}")
    }
}

impl fmt::Display for Words<AtlasPaint> {
    fn fmt<W: fmt::Write>(&self, f: &mut fmt::Formatter<W>) -> fmt::Result {
        match self.0 {
            AtlasPaint::Solid(color) => write!(f, "solid {}", Words(color)),
            AtlasPaint::Gradient(handle) => write!(f, "gradient {handle}"),
        }
    }
}

impl fmt::Display for Words<ImageQuality> {
    fn fmt<W: fmt::Write>(&self, f: &mut fmt::Formatter<W>) -> fmt::Result {
        match self.0 {
            ImageQuality::Low => f.write_str("low"),
            ImageQuality::Medium => f.write_str("medium"),
        }
    }
}

impl fmt::Display for Words<Picture> {
    fn fmt<W: fmt::Write>(&self, f: &mut fmt::Formatter<W>) -> fmt::Result {
        match self.0 {
            Picture::PixmapHandle(handle, quality) => {
                write!(f, "pixmap {handle} {}", Words(quality))
            }
            Picture::AtlasPage(page, quality) => write!(f, "atlas {page} {}", Words(quality)),
        }
    }
}

// A tint.
impl fmt::Display for Words<Option<Color>> {
    fn fmt<W: fmt::Write>(&self, f: &mut fmt::Formatter<W>) -> fmt::Result {
        match self.0 {
            Some(color) => write!(f, "mask {}", Words(color)),
            None => f.write_str("none"),
        }
    }
}
