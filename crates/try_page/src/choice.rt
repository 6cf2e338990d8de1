// Which image caches a page is packed onto: the words after the page's path.
ghost use Rattle.std.specs.Prelude.{◌<◌, length, IfSome};

use crate::failure::Failure;
use std::alloc::Global;
use std::fmt;

#[derive(Clone, Copy)]
pub enum CacheChoice {
    Shelf { width: u32, height: u32, pages: u32 },
    Grid { side: u16, pages: u32 },
}

// The first choice among the words, and the words after it; none where they begin with no cache.
fn first_of(words: &[String]) -> Option<(CacheChoice, &[String])>
    ensures { IfSome result (λ first. length first.1.now < length words.now) }
{
    match words {
        [kind, width, height, pages, rest @ ..] if kind.as_str() == "shelf" => {
            let shelf = CacheChoice::Shelf {
                width: width.as_str().parse().ok()?,
                height: height.as_str().parse().ok()?,
                pages: pages.as_str().parse().ok()?,
            };
            Some((shelf, rest))
        }
        [kind, side, pages, rest @ ..] if kind.as_str() == "grid" => {
            let grid = CacheChoice::Grid {
                side: side.as_str().parse().ok()?,
                pages: pages.as_str().parse().ok()?,
            };
            Some((grid, rest))
        }
        _ => None,
    }
}

impl CacheChoice {
    // Each `shelf WIDTH HEIGHT PAGES` or `grid SIDE PAGES`.
    pub fn read_all(heap: Global, words: &[String]) -> Result<Vec<CacheChoice>, Failure> {
        let mut choices = Vec::new(heap);
        let mut rest = words;
        while !rest.is_empty() {
            let (choice, after) = first_of(rest).ok_or(Failure::Cache)?;
            choices.push(choice)?;
            rest = after;
        }
        Ok(choices)
    }
}

impl fmt::Display for CacheChoice {
    fn fmt<W: fmt::Write>(&self, f: &mut fmt::Formatter<W>) -> fmt::Result {
        match *self {
            CacheChoice::Shelf {
                width,
                height,
                pages,
            } => { write!(f, "shelf cache, pages of {width} x {height}: {pages}") }
            CacheChoice::Grid { side, pages } => {
                write!(f, "grid cache, cells of {side} x {side}, pages: {pages}")
            }
        }
    }
}
