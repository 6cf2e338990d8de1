// Where the next image goes.
ghost use Rattle.std.specs.Prelude.{◌≡◌, ◌/◌, ◌%◌, ◌<◌, ◌≤◌, option_map, IfSome};
ghost use Rattle.shelf_cache.specs.Rows.{on_page, first_below, FirstBelow};
ghost use Rattle.shelf_cache.specs.Places.{end_above, admits, old_place, new_place, taking, opening, place_for, FitIn};

use crate::shelf::{Place, Shelf};
use crate::shelves::{MOST_IMAGES, PAGE_PLACES, PLACES, Shelves};
use image_cache::image::Size;

impl Shelves {
    // Whether a spot is free, and the size is from 1 by 1 to the page.
    fn admits(&self, size: Size) -> bool
        ensures { result ≡ admits self.now.live self.now.width self.now.height size.w size.h }
    {
        self.live < MOST_IMAGES
            && (1..=self.width).contains(&size.w)
            && (1..=self.height).contains(&size.h)
    }

    // Whether a shelf stands at that place and takes the image.
    fn takes(&self, at: usize, size: Size) -> bool
        requires { at < 64 }
        ensures { result ≡ taking self.now size.w size.h at }
    {
        at % PAGE_PLACES < self.standing[at / PAGE_PLACES]
            && self.shelves[at].takes(size, self.width)
    }

    // Where the shelf above that place, which has one or is the next of its page, ends: 0 at the top of a page.
    fn end_above(&self, at: usize) -> u16
        requires within { at < 64 }
        requires next { at % 16 ≤ on_page self.now.standing (at / 16) }
        ensures { result ≡ end_above self.now.shelves at }
    {
        if at % PAGE_PLACES == 0 {
            0
        } else {
            self.shelves[at - 1].end()
        }
    }

    // Whether a shelf of that height can be opened at that place: below the last shelf of a page, with that height left.
    fn opens(&self, at: usize, height: u16) -> bool
        requires { at < 64 }
        ensures { result ≡ opening self.now height at }
    {
        at < PAGE_PLACES * self.count as usize
            && at % PAGE_PLACES == self.standing[at / PAGE_PLACES]
            && u32::from(self.end_above(at)) + u32::from(height) <= u32::from(self.height)
    }

    // The first shelf that takes the image.
    fn first_taking(&self, size: Size) -> Option<usize>
        ensures { FirstBelow (taking self.now size.w size.h) 64 result }
    {
        (0..PLACES).find(|at| self.takes(*at, size))
    }

    // The first place where a shelf of that height can be opened.
    fn first_opening(&self, height: u16) -> Option<usize>
        ensures { FirstBelow (opening self.now height) 64 result }
    {
        (0..PLACES).find(|at| self.opens(*at, height))
    }

    // The first shelf that takes the image, as it is.
    fn old_place(&self, size: Size) -> Option<Place>
        ensures { result ≡ option_map (old_place self.now.shelves) (first_below (taking self.now size.w size.h) 64) }
    {
        let at = self.first_taking(size)?;
        Some(Place {
            at,
            shelf: self.shelves[at],
        })
    }

    // A new shelf of that height below the last of the first page with room.
    fn new_place(&self, height: u16) -> Option<Place>
        ensures { result ≡ option_map (new_place self.now.shelves height) (first_below (opening self.now height) 64) }
    {
        let at = self.first_opening(height)?;
        Some(Place {
            at,
            shelf: Shelf {
                top: self.end_above(at),
                height,
                ..Shelf::EMPTY
            },
        })
    }

    // The first shelf that takes the image, else a new one of its height.
    pub(crate) fn place(&self, size: Size) -> Option<Place>
        ensures value { result ≡ place_for self.now size.w size.h }
        ensures fit { IfSome result (λ p. FitIn self.now size.w size.h p) }
    {
        if !self.admits(size) {
            return None;
        }
        self.old_place(size).or_else(|| self.new_place(size.h))
    }
}
