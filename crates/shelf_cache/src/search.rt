// The image with an id.
ghost use Rattle.shelf_cache.specs.Places.{Finds};

use crate::shelves::Shelves;

impl Shelves {
    // The place of the image with that id.
    pub(crate) fn find(&self, id: u32) -> Option<usize>
        ensures { Finds self.now id result }
    {
        self.spots[..self.live]
            .iter()
            .position(|spot| spot.id == id)
    }
}
