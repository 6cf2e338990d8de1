// The pictures that a page wants of the atlas, each once, in the order in which they first come.
use image_cache::image::Size;
use raster::glyph::RasterMetrics;
use std::alloc::{AllocError, Global};

// One pixel of padding on either side.
pub const PADDING: u16 = 2;

#[derive(Drop)]
pub struct Picture {
    pub name: String,
    pub line: u64,
    pub size: Size,
}

impl Picture {
    pub fn new(
        heap: Global,
        name: &str,
        line: u64,
        metrics: RasterMetrics,
    ) -> Result<Picture, AllocError> {
        Ok(Picture {
            name: String::from_str(heap, name)?,
            line,
            size: Size {
                w: metrics.width.saturating_add(PADDING),
                h: metrics.height.saturating_add(PADDING),
            },
        })
    }

    // The character that stands for the picture on a map.
    pub fn sign(&self) -> char {
        self.name.as_str().chars().next().unwrap_or('?')
    }
}
