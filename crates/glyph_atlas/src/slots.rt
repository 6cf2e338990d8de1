// A place for a picture: an image in the cache, and the slot inside its padding.
ghost use Rattle.std.specs.Prelude.{◌≡◌, ◌<◌, ◌≤◌};
ghost use Rattle.shapes.specs.Answers.{KeepsRefused};
ghost use Rattle.glyph_atlas.specs.Atlases.{slot_in};
ghost use Rattle.glyph_atlas.specs.Places.{PlacedOr};

use image_cache::cache::ImageCache;
use image_cache::fault::CacheFault;
use image_cache::image::{Image, Size};
use interface::region::AtlasSlot;
use raster::glyph::RasterMetrics;

// One pixel more on every side.
pub(crate) const PADDING: u16 = 2;

// The place inside the padding.
fn slot_in(image: Image, metrics: RasterMetrics) -> AtlasSlot
    requires { (image.x < 65535) × (image.y < 65535) }
    ensures { result ≡ slot_in image metrics }
{
    AtlasSlot {
        id: image.id,
        page: image.page,
        x: image.x + 1,
        y: image.y + 1,
        width: metrics.width,
        height: metrics.height,
        left: metrics.left,
        top: metrics.top,
    }
}

pub(crate) fn place<C: ImageCache>(
    cache: &mut C,
    metrics: RasterMetrics,
) -> Result<AtlasSlot, CacheFault>
    requires { (metrics.width ≤ 65533) × (metrics.height ≤ 65533) }
    ensures places { PlacedOr (C.meaning cache.old) metrics result (C.meaning cache.new) }
    ensures keeps { KeepsRefused result cache.old cache.new }
{
    let size = Size {
        w: metrics.width + PADDING,
        h: metrics.height + PADDING,
    };
    let id = cache.allocate(size)?;
    let image = cache.get(id).unwrap();
    Ok(slot_in(image, metrics))
}
