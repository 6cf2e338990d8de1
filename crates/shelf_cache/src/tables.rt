// What changes more than one shelf or one spot of a table.
ghost use Rattle.std.specs.Prelude.{◌≡◌, ◌<◌, ◌≤◌, length};
ghost use Rattle.shelf_cache.specs.Sound.{Lowered};
ghost use Rattle.shelf_cache.specs.Places.{left_of, Numbered};

use crate::shelf::{Shelf, Spot};
use crate::shelves::{MOST_IMAGES, PAGE_PLACES, PLACES};
use lists::close::close_up;
use std::array;

// No image, and the ids 0 to 255 free.
pub(crate) fn free_spots() -> [Spot; MOST_IMAGES]
    ensures { Numbered result }
{
    array::from_fn(|at| Spot {
        id: at as u32,
        shelf: 0,
        x: 0,
        y: 0,
        w: 0,
        h: 0,
    })
}

// The image at k leaves: the later ones move down by one, and its spot becomes the last, so that its id is free.
pub(crate) fn retire(spots: &mut [Spot], k: usize)
    requires { k < length spots.old }
    ensures { spots.new ≡ left_of spots.old k }
{
    let gone = spots[k];
    close_up(spots, k);
    let last = spots.len() - 1;
    spots[last] = gone;
}

// How many of the n shelves of the page are left, once the empty lowest ones are gone.
pub(crate) fn left_standing(shelves: &[Shelf; PLACES], page: usize, n: usize) -> usize
    requires page { page < 4 }
    requires shelves { n ≤ 16 }
    ensures { Lowered shelves.now page n result }
{
    let top = PAGE_PLACES * page;
    shelves[top..top + n]
        .iter()
        .rposition(|shelf| shelf.used != 0)
        .map_or(0, |lowest| lowest + 1)
}
