// The table made, asked, added to and emptied. Only `new` asks for memory.
ghost use Rattle.std.specs.Prelude.{◌≡◌, ◌<◌, ◌≤◌, false, [], ◌∷◌, ◌++◌, length, IfOk, None, filter};
ghost use Rattle.glyph_key.specs.Once.{repeats};
ghost use Rattle.glyph_atlas.specs.Atlases.{lookup};
ghost use Rattle.glyph_atlas.specs.Shape.{keys_of, oversized};

use crate::entry::GlyphCacheEntry;
use crate::table::EntryTable;
use lists::bounded::Bounded;
use std::alloc::{AllocError, Global};

impl EntryTable {
    pub(crate) fn new(heap: Global) -> Result<EntryTable, AllocError>
        ensures { IfOk result (λ t. t ≡ []) }
    {
        let entries = Bounded::new(heap)?;
        Ok(EntryTable { entries })
    }

    pub(crate) fn len(&self) -> usize
        ensures value { result ≡ length self.now }
        ensures few { result ≤ 256 }
        ensures once { repeats (keys_of self.now) ≡ false }
        ensures sized { filter oversized self.now ≡ [] }
    {
        self.entries.len()
    }

    // Entries stand in order of making.
    pub(crate) fn add(&mut self, entry: GlyphCacheEntry)
        requires room { length self.old < 256 }
        requires new { lookup entry.key self.old ≡ None }
        requires narrow { entry.slot.width ≤ 65533 }
        requires low { entry.slot.height ≤ 65533 }
        ensures { self.new ≡ self.old ++ entry ∷ [] }
    {
        self.entries.push(entry).unwrap();
    }

    pub(crate) fn clear(&mut self)
        ensures { self.new ≡ [] }
    {
        self.entries.clear();
    }
}
