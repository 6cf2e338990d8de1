// Finding places.
ghost use Rattle.std.specs.Prelude.{IfOk};
ghost use Rattle.packing.specs.Packed.{Placed};
ghost use Rattle.packing.specs.Run.{PlacedAll};
ghost use Rattle.shapes.specs.Answers.{KeepsRefused};

use image_cache::cache::ImageCache;
use image_cache::fault::CacheFault;
use image_cache::image::{Image, Size};
use std::alloc::{AllocError, Global};

// A place for a picture of that size, and what stands there now.
pub fn place<C: ImageCache>(cache: &mut C, size: Size) -> Result<Image, CacheFault>
    ensures places { Placed (C.meaning cache.old) size result (C.meaning cache.new) }
    ensures keeps { KeepsRefused result cache.old cache.new }
{
    let id = cache.allocate(size)?;
    Ok(cache.get(id).unwrap())
}

// Places the pictures one after the other. The answers are in their order; one that finds no place leaves the cache as it is, and the next is tried. Without memory for
// the answers nothing is placed.
pub fn place_all<C: ImageCache>(
    heap: Global,
    cache: &mut C,
    sizes: &[Size],
) -> Result<Vec<Result<Image, CacheFault>>, AllocError>
    ensures places { IfOk result (λ v. PlacedAll (C.meaning cache.old) sizes.now v.items (C.meaning cache.new)) }
    ensures keeps { KeepsRefused result cache.old cache.new }
{
    let mut answers = Vec::with_capacity(heap, sizes.len())?;
    for size in sizes {
        answers.push_reserved(place(cache, *size));
    }
    Ok(answers)
}
