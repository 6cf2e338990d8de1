// New shelves.
ghost use Rattle.shelf_cache.specs.Places.{InLimits, Fresh, Opened, SideOf};

use crate::shelf::Shelf;
use crate::shelves::{MOST_PAGES, PLACES, Shelves};
use crate::tables::free_spots;
use image_cache::fault::CacheFault;

const SMALLEST_SIDE: u16 = 2;

// The side of a page; refused with 11 where it is not 2 to 65535.
fn side(pixels: u32) -> Result<u16, CacheFault>
    ensures { SideOf pixels result }
{
    u16::try_from(pixels)
        .ok()
        .filter(|side| *side >= SMALLEST_SIDE)
        .ok_or(CacheFault::Sizes)
}

impl Shelves {
    // Pages within the limits, with no shelf on them and no image.
    fn empty(width: u16, height: u16, count: u32) -> Shelves
        requires { InLimits width height count }
        ensures { Fresh width height count result }
    {
        Shelves {
            width,
            height,
            count,
            shelves: [Shelf::EMPTY; PLACES],
            standing: [0; MOST_PAGES],
            spots: free_spots(),
            live: 0,
        }
    }

    // Pages of those sides, no shelf on them; refused with 11 where a side is not 2 to 65535 or the pages are not 1 to 4.
    pub fn new(width: u32, height: u32, count: u32) -> Result<Shelves, CacheFault>
        ensures { Opened width height count result }
    {
        let width = side(width)?;
        let height = side(height)?;
        if !(1..=MOST_PAGES as u32).contains(&count) {
            return Err(CacheFault::Sizes);
        }
        Ok(Shelves::empty(width, height, count))
    }
}
