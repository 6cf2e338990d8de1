// An image comes, or goes.
ghost use Rattle.std.specs.Prelude.{◌≡◌, ◌<◌, Some};
ghost use Rattle.image_cache.specs.Caches.{Added, Removed};
ghost use Rattle.shelf_cache.specs.Rows.{spot_at};
ghost use Rattle.shelf_cache.specs.Places.{cache_of_shelves, place_for, FitIn, PutAt, LeftBy};

use crate::shelf::Place;
use crate::shelves::{PAGE_PLACES, Shelves};
use crate::tables::{left_standing, retire};
use image_cache::image::Size;

impl Shelves {
    // Puts an image where it goes, under the first id that is free.
    pub(crate) fn put(&mut self, place: Place, size: Size) -> u32
        requires chosen { place_for self.old size.w size.h ≡ Some place }
        requires fit { FitIn self.old size.w size.h place }
        ensures adds { Added (cache_of_shelves self.old) size.w size.h result (cache_of_shelves self.new) }
        ensures put { PutAt self.old size.w size.h result self.new }
    {
        let id = self.spots[self.live].id;
        let page = place.at / PAGE_PLACES;
        self.standing[page] = self.standing[page].max(place.at % PAGE_PLACES + 1);
        self.shelves[place.at] = place.shelf.with_image(size.w);
        self.spots[self.live] = place.spot(id, size);
        self.live += 1;
        id
    }

    // Removes the image at k.
    pub(crate) fn remove(&mut self, k: usize)
        requires { k < self.old.live }
        ensures removes { Removed (cache_of_shelves self.old) (spot_at self.old.spots k).id (cache_of_shelves self.new) }
        ensures leaves { LeftBy self.old (spot_at self.old.spots k).id self.new }
    {
        let at = self.spots[k].shelf as usize;
        let page = at / PAGE_PLACES;
        let shelf = self.shelves[at].without_image();
        retire(&mut self.spots, k);
        self.live -= 1;
        self.shelves[at] = shelf;
        self.standing[page] = left_standing(&self.shelves, page, self.standing[page]);
    }
}
