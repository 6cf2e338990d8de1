// The free cells of a page as the bits of a word.
ghost use Rattle.std.specs.Prelude.{◌≡◌, ◌-◌, ◌<◌, map, is_some};
ghost use Rattle.std.specs.List.{range_with_len};
ghost use Rattle.std.specs.Int.Count.{count_leading_zeros};
ghost use Rattle.grid_cache.specs.Cells.{is_free, any_free, toggled, word_of, FirstRoom};

use crate::cells::{page_of, place_of};
use std::array;

// The words of a new grid: all cells are free on a page that is there, and none on one that is not.
pub(crate) fn new_words(count: u32) -> [u64; 4]
    ensures { result ≡ map (λ page. word_of page count) (range_with_len 0 4) }
{
    array::from_fn(|page| if (page as u32) < count { u64::MAX } else { 0 })
}

// The highest bit that is set, where one is.
pub(crate) fn highest(word: u64) -> u32
    requires { 0 < word }
    ensures { result ≡ 63 - count_leading_zeros 64 word }
{
    63 - word.leading_zeros()
}

// Whether the bit of the cell is set.
pub(crate) fn is_free(free: &[u64; 4], cell: u32) -> bool
    requires { cell < 256 }
    ensures { result ≡ is_free free.now cell }
{
    (free[page_of(cell)] >> place_of(cell)) & 1 == 1
}

// Makes a free cell a taken one, or a taken one free.
pub(crate) fn turn(free: &mut [u64; 4], cell: u32)
    requires { cell < 256 }
    ensures { free.new ≡ toggled free.old cell }
{
    free[page_of(cell)] ^= 1 << place_of(cell);
}

// The first page with a free cell.
pub(crate) fn first_room(words: &[u64]) -> Option<usize>
    ensures first { FirstRoom words.now result }
    ensures some { is_some result ≡ any_free words.now }
{
    words.iter().position(|word| *word != 0)
}
