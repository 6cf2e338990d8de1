// Where a glyph's picture lies.
ghost use Rattle.std.specs.Prelude.{◌≡◌};
ghost use Rattle.interface.specs.Slots.{identity, slot_page, slot_place};

use crate::values::ImageSource;
use shapes::Affine;

// A place on a page, without its padding: the image in the cache is one pixel larger on every side, so that a drawing that reads a
// little past the edge meets nothing of a neighbour. `left` and `top` are the bearings, from the glyph's origin to the picture's edges.
#[derive(Clone, Copy)]
pub struct AtlasSlot {
    pub id: u32,
    pub page: u32,
    pub x: u16,
    pub y: u16,
    pub width: u16,
    pub height: u16,
    pub left: i16,
    pub top: i16,
}

// Leaves every point where it is.
fn identity() -> Affine
    ensures { result ≡ identity }
{
    Affine::IDENTITY
}

impl AtlasSlot {
    // The page as an image.
    pub fn page_image(self) -> ImageSource
        ensures { result ≡ slot_page self }
    {
        ImageSource::OfAtlas(self.page)
    }

    // The shift that takes the slot's left top corner to the origin.
    pub fn paint_transform(self) -> Affine
        ensures { result ≡ slot_place self }
    {
        Affine {
            e: -(self.x as f64),
            f: -(self.y as f64),
            ..identity()
        }
    }
}
