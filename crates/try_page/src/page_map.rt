// A page as text: one character for each cell of a coarse raster, and the share of it that is used.
ghost use Rattle.std.specs.Prelude.{◌≡◌};
ghost use Rattle.try_page.specs.Spot.{covers};

use image_cache::image::{Image, Size};
use std::alloc::{AllocError, Global};

// Characters of a map, across and down: two to one, as characters stand.
const COLUMNS: u32 = 64;

pub const ROWS: u32 = 32;

// An image that a page shows, and the character for it.
#[derive(Clone, Copy)]
pub struct Mark {
    pub image: Image,
    pub sign: char,
}

// Whether the image covers that pixel of that page.
fn is_over(image: Image, page: u32, x: u32, y: u32) -> bool
    ensures { result ≡ covers image page x y }
{
    let left = u32::from(image.x);
    let top = u32::from(image.y);
    (image.page == page)
        && (left <= x)
        && (x < left + u32::from(image.w))
        && (top <= y)
        && (y < top + u32::from(image.h))
}

impl Mark {
    fn pixels(&self) -> u64 {
        u64::from(self.image.w) * u64::from(self.image.h)
    }
}

// The pixel in the middle of a cell of the raster.
fn middle(cell: u32, cells: u32, size: u16) -> u32 {
    let twice = u64::from(cell.saturating_mul(2).saturating_add(1)) * u64::from(size);
    let pixel = twice / u64::from(cells.max(1).saturating_mul(2));
    u32::try_from(pixel).unwrap_or(0)
}

// One page of those that the marks are on.
#[derive(Clone, Copy)]
pub struct PageMap<'a> {
    pub marks: &'a [Mark],
    pub page: u32,
    pub size: Size,
}

impl PageMap<'_> {
    fn sign_at(&self, x: u32, y: u32) -> char {
        let page = self.page;
        self.marks
            .iter()
            .find(|mark| is_over(mark.image, page, x, y))
            .map_or('.', |mark| mark.sign)
    }

    pub fn row(&self, heap: Global, row: u32) -> Result<String, AllocError> {
        let y = middle(row, ROWS, self.size.h);
        (0..COLUMNS)
            .map(|column| self.sign_at(middle(column, COLUMNS, self.size.w), y))
            .collect(heap)
    }

    // The pixels of the page's images.
    fn used_pixels(&self) -> u64 {
        let page = self.page;
        self.marks
            .iter()
            .filter(|mark| mark.image.page == page)
            .fold(0u64, |used, mark| used.saturating_add(mark.pixels()))
    }

    // The share of the page that is used, in tenths of a percent.
    pub fn share(&self) -> u64 {
        let all = u64::from(self.size.w) * u64::from(self.size.h);
        self.used_pixels().saturating_mul(1000) / all.max(1)
    }
}
