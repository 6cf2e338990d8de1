// The worked cases of closing up and of the cells of a grid: as one statement on the definitions, and run by the code.
ghost use Rattle.std.specs.Prelude.{◌≡◌, true};
ghost use Rattle.cases.specs.Cells.{Lists, Cells};

use grid_cache::grid::Grid;
use image_cache::cache::ImageCache;
use image_cache::image::Size;

// With cells of ten pixels, the first image of a new grid goes to the last cell of the first page, at (70, 70).
pub(crate) fn cells_hold() -> bool
    ensures lists { Lists }
    ensures cells { Cells }
    ensures run { result ≡ true }
{
    let Ok(mut grid) = Grid::new(10, 2) else {
        return false;
    };
    let Ok(id) = grid.allocate(Size { w: 10, h: 1 }) else {
        return false;
    };
    let Some(image) = grid.get(id) else {
        return false;
    };
    (image.page, image.x, image.y) == (0, 70, 70)
}
