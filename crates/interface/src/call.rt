// The calls that a sink or a screen holds.
ghost use Rattle.std.specs.Prelude.{◌≡◌};
ghost use Rattle.interface.specs.Pictures.{pictured};

use crate::values::{AtlasCommand, ImageQuality, ImageSource, PaintImage};
use shapes::{Color, Path};

// An image as a call has it: a pixmap by its handle alone, or a page of the atlas by its number.
#[derive(Clone, Copy)]
pub enum Picture {
    PixmapHandle(u32, ImageQuality),
    AtlasPage(u32, ImageQuality),
}

// One of the eleven commands, or one of five calls that only a screen takes. A tint is a colour that the image masks by its alpha, or none.
#[derive(Clone, Copy)]
pub enum Call {
    Command(AtlasCommand),
    SaveState,
    RestoreState,
    StrokePath(Path),
    SetPaintImage(Picture),
    SetTint(Option<Color>),
}

impl PaintImage {
    pub fn picture(self) -> Picture
        ensures { result ≡ pictured self }
    {
        match self.source {
            ImageSource::OfPixmap(pixmap) => Picture::PixmapHandle(pixmap.handle, self.quality),
            ImageSource::OfAtlas(page) => Picture::AtlasPage(page, self.quality),
        }
    }
}
