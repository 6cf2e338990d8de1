// Shelves as an image cache.
ghost use Rattle.std.specs.Prelude.{IfOk, OnOk};
ghost use Rattle.shapes.specs.Answers.{KeepsRefused};
ghost use Rattle.image_cache.specs.Caches.{Allocated, Freed};
ghost use Rattle.shelf_cache.specs.Places.{cache_of_shelves, PutAt, LeftBy};
ghost use Rattle.shelf_cache.specs.Laws.{lawful};

use crate::shelves::Shelves;
use image_cache::cache::ImageCache;
use image_cache::fault::CacheFault;
use image_cache::image::{Image, Size};

impl ImageCache for Shelves {
    ghost meaning = { cache_of_shelves };

    ghost lawful = { lawful };

    fn page_width(&self) -> u16 {
        self.width
    }

    fn page_height(&self) -> u16 {
        self.height
    }

    fn page_count(&self) -> u32 {
        self.count
    }

    fn largest_width(&self) -> u16 {
        self.page_width()
    }

    fn largest_height(&self) -> u16 {
        self.page_height()
    }

    fn fits(&self, size: Size) -> bool {
        self.place(size).is_some()
    }

    // Besides what any cache does: it goes to the first shelf that takes it, else to a new one on the first page with room.
    fn allocate(&mut self, size: Size) -> Result<u32, CacheFault>
        ensures allocates { Allocated (cache_of_shelves self.old) size.w size.h result (cache_of_shelves self.new) }
        ensures keeps { KeepsRefused result self.old self.new }
        ensures put { IfOk result (λ i. PutAt self.old size.w size.h i self.new) }
    {
        let place = self.place(size).ok_or(CacheFault::NoFit)?;
        Ok(self.put(place, size))
    }

    fn get(&self, id: u32) -> Option<Image> {
        self.find(id).map(|at| Image::from(self.spots[at]))
    }

    // Besides what any cache does: a shelf that becomes empty starts from its left again, and empty lowest shelves vanish.
    fn free(&mut self, id: u32) -> Result<(), CacheFault>
        ensures frees { Freed (cache_of_shelves self.old) id result (cache_of_shelves self.new) }
        ensures keeps { KeepsRefused result self.old self.new }
        ensures leaves { OnOk result (LeftBy self.old id self.new) }
    {
        let at = self.find(id).ok_or(CacheFault::NotLive)?;
        self.remove(at);
        Ok(())
    }
}
