// Any image cache, by its meaning alone: code above it is proved once, for every cache.
ghost use Rattle.std.specs.Prelude.{◌≡◌};
ghost use Rattle.shapes.specs.Answers.{KeepsRefused};
ghost use Rattle.image_cache.specs.Caches.{Cache, Lawful, Allocated, Freed};

use crate::fault::CacheFault;
use crate::image::{Image, Size};

pub trait ImageCache {
    ghost meaning: { Self → Cache };

    fn page_width(&self) -> u16
        ensures { result ≡ (meaning self.now).page_width };

    fn page_height(&self) -> u16
        ensures { result ≡ (meaning self.now).page_height };

    fn page_count(&self) -> u32
        ensures { result ≡ (meaning self.now).page_count };

    fn largest_width(&self) -> u16
        ensures { result ≡ (meaning self.now).largest_width };

    fn largest_height(&self) -> u16
        ensures { result ≡ (meaning self.now).largest_height };

    // Whether an image of that size finds a place now.
    fn fits(&self, size: Size) -> bool
        ensures { result ≡ (meaning self.now).fits size.w size.h };

    // A place for an image of that size, under a new id; refused with 14 exactly where it does not fit.
    fn allocate(&mut self, size: Size) -> Result<u32, CacheFault>
        ensures allocates { Allocated (meaning self.old) size.w size.h result (meaning self.new) }
        ensures keeps { KeepsRefused result self.old self.new };

    // The live image of that id.
    fn get(&self, id: u32) -> Option<Image>
        ensures { result ≡ (meaning self.now).live id };

    // The image is live no more; refused with 9 exactly where there is none.
    fn free(&mut self, id: u32) -> Result<(), CacheFault>
        ensures frees { Freed (meaning self.old) id result (meaning self.new) }
        ensures keeps { KeepsRefused result self.old self.new };

    ghost lawful: { (c : Self) → Lawful (meaning c) };
}
