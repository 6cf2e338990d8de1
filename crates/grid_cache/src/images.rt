// The grid as an image cache.
ghost use Rattle.std.specs.Prelude.{◌≡◌, IfOk};
ghost use Rattle.shapes.specs.Answers.{KeepsRefused};
ghost use Rattle.image_cache.specs.Caches.{Allocated};
ghost use Rattle.grid_cache.specs.Cells.{cache_of_grid, Chosen};
ghost use Rattle.grid_cache.specs.Laws;

use crate::cells::ROW_CELLS;
use crate::grid::Grid;
use image_cache::cache::ImageCache;
use image_cache::fault::CacheFault;
use image_cache::image::{Image, Size};

impl ImageCache for Grid {
    ghost meaning = { cache_of_grid };

    ghost lawful = { λ c. Laws.lawful c.cell c.count c.free c.sizes c.limits c.within };

    fn page_width(&self) -> u16 {
        self.span(ROW_CELLS)
    }

    fn page_height(&self) -> u16 {
        self.page_width()
    }

    fn page_count(&self) -> u32 {
        self.count
    }

    fn largest_width(&self) -> u16 {
        self.cell
    }

    fn largest_height(&self) -> u16 {
        self.largest_width()
    }

    fn fits(&self, size: Size) -> bool {
        self.place(size).is_some()
    }

    // Besides what any cache does: it takes the free cell of highest number on the first page that has one.
    fn allocate(&mut self, size: Size) -> Result<u32, CacheFault>
        ensures allocates { Allocated (cache_of_grid self.old) size.w size.h result (cache_of_grid self.new) }
        ensures keeps { KeepsRefused result self.old self.new }
        ensures chosen { IfOk result (λ i. Chosen self.old i) }
    {
        let id = self.place(size).ok_or(CacheFault::NoFit)?;
        self.take(id, size);
        Ok(id)
    }

    fn get(&self, id: u32) -> Option<Image> {
        self.is_taken(id).then(|| self.image_at(id))
    }

    fn free(&mut self, id: u32) -> Result<(), CacheFault> {
        if !self.is_taken(id) {
            return Err(CacheFault::NotLive);
        }
        self.give_back(id);
        Ok(())
    }
}
