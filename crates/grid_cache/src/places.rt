// Where the next image goes, and where each image is.
ghost use Rattle.std.specs.Prelude.{◌≡◌, ◌*◌, ◌<◌, is_some, IfSome};
ghost use Rattle.grid_cache.specs.Cells.{size_fits, fits_in, is_taken, image_at, Chosen};

use crate::cells::{PAGE_CELLS, column_of, page_of, row_of};
use crate::grid::Grid;
use crate::words::{first_room, highest, is_free};
use image_cache::image::{Image, Size};

impl Grid {
    // Whether an image of that size goes into a cell.
    pub(crate) fn suits(&self, size: Size) -> bool
        ensures { result ≡ size_fits self.now.cell size.w size.h }
    {
        let sides = 1..=self.cell;
        sides.contains(&size.w) && sides.contains(&size.h)
    }

    // The cell for an image of that size, if there is one.
    pub(crate) fn place(&self, size: Size) -> Option<u32>
        ensures fits { is_some result ≡ fits_in self.now.cell self.now.free size.w size.h }
        ensures chosen { IfSome result (λ i. Chosen self.now i) }
    {
        if !self.suits(size) {
            return None;
        }
        let page = first_room(&self.free)?;
        Some(PAGE_CELLS * page as u32 + highest(self.free[page]))
    }

    // Whether an image is in that cell: the cell is on one of the pages, and its bit is not set.
    pub(crate) fn is_taken(&self, id: u32) -> bool
        ensures { result ≡ is_taken self.now.count self.now.free id }
    {
        id < PAGE_CELLS * self.count && !is_free(&self.free, id)
    }

    // The image in that cell, at the cell's left and top edge.
    pub(crate) fn image_at(&self, id: u32) -> Image
        requires { id < 256 }
        ensures { result ≡ image_at self.now.cell self.now.sizes id }
    {
        let size = self.sizes[id as usize];
        Image {
            id,
            page: page_of(id) as u32,
            x: self.span(column_of(id)),
            y: self.span(row_of(id)),
            w: size.w,
            h: size.h,
        }
    }

    // The pixels that so many cells take up in a row or a column.
    pub(crate) fn span(&self, cells: u32) -> u16
        requires { cells < 9 }
        ensures { result ≡ cells * self.now.cell }
    {
        cells as u16 * self.cell
    }
}
