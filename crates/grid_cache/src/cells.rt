// Where a cell lies, by its number: cells are numbered row by row, and page by page.
ghost use Rattle.std.specs.Prelude.{◌≡◌, ◌/◌, ◌%◌};

// Cells in a row, and in a column.
pub(crate) const ROW_CELLS: u32 = 8;

// Cells on a page.
pub(crate) const PAGE_CELLS: u32 = 64;

pub(crate) fn page_of(cell: u32) -> usize
    ensures { result ≡ cell / 64 }
{
    (cell / PAGE_CELLS) as usize
}

// The number of the cell among those of its page.
pub(crate) fn place_of(cell: u32) -> u32
    ensures { result ≡ cell % 64 }
{
    cell % PAGE_CELLS
}

pub(crate) fn row_of(cell: u32) -> u32
    ensures { result ≡ cell % 64 / 8 }
{
    place_of(cell) / ROW_CELLS
}

pub(crate) fn column_of(cell: u32) -> u32
    ensures { result ≡ cell % 8 }
{
    cell % ROW_CELLS
}
