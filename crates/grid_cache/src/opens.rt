// New grids.
ghost use Rattle.std.specs.Prelude.{◌≡◌};
ghost use Rattle.grid_cache.specs.Sizes.{InLimits};
ghost use Rattle.grid_cache.specs.Cells.{Fresh, Opened};

use crate::grid::Grid;
use crate::words::new_words;
use image_cache::fault::CacheFault;
use image_cache::image::Size;

const SMALLEST_CELL: u16 = 2;

// Eight cells of this side are within the largest page, 65535 pixels.
const LARGEST_CELL: u16 = 8191;

const MOST_PAGES: u32 = 4;

impl Grid {
    // A grid within the limits, every cell free.
    fn open(cell: u16, count: u32) -> Grid
        requires { InLimits cell count }
        ensures { Fresh cell count result }
    {
        Grid {
            cell,
            count,
            free: new_words(count),
            sizes: [Size { w: 0, h: 0 }; 256],
        }
    }

    // A grid of so many pages of cells of that side; refused with 11 where the side is not 2 to 8191 or the pages are not 1 to 4.
    pub fn new(cell: u16, count: u32) -> Result<Grid, CacheFault>
        ensures { Opened cell count result }
    {
        if !(SMALLEST_CELL..=LARGEST_CELL).contains(&cell) || !(1..=MOST_PAGES).contains(&count) {
            return Err(CacheFault::Sizes);
        }
        Ok(Grid::open(cell, count))
    }
}
