// Pages of 8 by 8 cells of one side. Cells are numbered row by row, 64 to a page, and an image has the number of its cell as its id.
ghost use Rattle.std.specs.Prelude.{◌≡◌, ℕ, ◌≤◌, slice_index, slice_index_or};
ghost use Rattle.grid_cache.specs.Sizes.{no_size, GoesInto, InLimits};

use image_cache::image::Size;

#[derive(Drop)]
pub struct Grid {
    // the side of a cell, in pixels
    pub(crate) cell: u16,
    // how many pages there are
    pub(crate) count: u32,
    // one word a page: a bit is set where the cell is free; a page that is not there has no free cell
    pub(crate) free: [u64; 4],
    // the size of the image in each cell; of a cell that is free it says nothing
    pub(crate) sizes: [Size; 256],
    ghost limits: { InLimits cell count },
    ghost idle: { (p : ℕ) → count ≤ p → slice_index free p ≡ 0 },
    ghost within: { (k : ℕ) → GoesInto cell (slice_index_or sizes k no_size) },
}
