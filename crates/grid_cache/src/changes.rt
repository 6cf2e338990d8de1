// Taking a cell, and giving it back.
ghost use Rattle.std.specs.Prelude.{◌≡◌, true};
ghost use Rattle.image_cache.specs.Caches.{Added, Removed};
ghost use Rattle.grid_cache.specs.Cells.{fits_in, is_taken, cache_of_grid, Chosen};

use crate::grid::Grid;
use crate::words::turn;
use image_cache::image::Size;

impl Grid {
    // Puts an image of that size into its cell.
    pub(crate) fn take(&mut self, id: u32, size: Size)
        requires chosen { Chosen self.old id }
        requires fits { fits_in self.old.cell self.old.free size.w size.h ≡ true }
        ensures { Added (cache_of_grid self.old) size.w size.h id (cache_of_grid self.new) }
    {
        self.sizes[id as usize] = size;
        turn(&mut self.free, id);
    }

    pub(crate) fn give_back(&mut self, id: u32)
        requires { is_taken self.old.count self.old.free id ≡ true }
        ensures { Removed (cache_of_grid self.old) id (cache_of_grid self.new) }
    {
        turn(&mut self.free, id);
    }
}
