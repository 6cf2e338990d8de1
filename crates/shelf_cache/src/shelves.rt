// Pages of shelves, and the images on them.
ghost use Rattle.shelf_cache.specs.Sound.{Side, Pages, Paged, Sixteen, Inside, Inner, Stacked, Few, Sized, Placed, Stood, Upright, Beside, Reset, Counted, Lowest, Small, Single};

use crate::shelf::{Shelf, Spot};

// Places for shelves on a page.
pub(crate) const PAGE_PLACES: usize = 16;

// Places for shelves on all pages that there may be.
pub(crate) const PLACES: usize = 64;

pub(crate) const MOST_PAGES: usize = 4;

pub(crate) const MOST_IMAGES: usize = 256;

#[derive(Drop)]
pub struct Shelves {
    pub(crate) width: u16,
    pub(crate) height: u16,
    pub(crate) count: u32,
    // the places of each page, page by page and from the top
    pub(crate) shelves: [Shelf; PLACES],
    // how many of a page's places have a shelf
    pub(crate) standing: [usize; MOST_PAGES],
    // the images in the order of making, then the ids that are free
    pub(crate) spots: [Spot; MOST_IMAGES],
    // how many of the spots are images
    pub(crate) live: usize,
    ghost wide: { Side width },
    ghost high: { Side height },
    ghost pages: { Pages count },
    ghost paged: { Paged count standing },
    ghost sixteen: { Sixteen standing },
    ghost inside: { Inside height shelves standing },
    ghost inner: { Inner width shelves },
    ghost stacked: { Stacked shelves standing },
    ghost few: { Few live },
    ghost sized: { Sized spots live },
    ghost placed: { Placed shelves spots live },
    ghost stood: { Stood standing spots live },
    ghost upright: { Upright shelves spots live },
    ghost beside: { Beside spots live },
    ghost reset: { Reset shelves spots live },
    ghost counted: { Counted shelves spots live },
    ghost lowest: { Lowest shelves standing },
    ghost small: { Small spots },
    ghost single: { Single spots },
}
