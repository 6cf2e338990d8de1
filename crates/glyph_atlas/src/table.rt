// The entries, in order of making: at most 256, in memory that is there from the start, each key once, and every slot small enough that its padding fits 16 bits.
// Contracts see the list of them.
use crate::entry::GlyphCacheEntry;
use lists::bounded::Bounded;
use std::marker::Model;

// Entries at most.
pub(crate) const MOST_ENTRIES: usize = 256;

#[derive(Drop)]
pub(crate) struct EntryTable {
    pub(crate) entries: Bounded<GlyphCacheEntry, MOST_ENTRIES>,
}

impl Model for EntryTable {
    ghost use Rattle.std.specs.Prelude.{◌≡◌, false, List, [], filter};
    ghost use Rattle.glyph_key.specs.Once.{repeats};
    ghost use Rattle.glyph_atlas.specs.declared.entry.GlyphCacheEntry.{GlyphCacheEntry};
    ghost use Rattle.glyph_atlas.specs.Shape.{keys_of, oversized};

    ghost Value = { List GlyphCacheEntry };

    ghost view = { λ t. t.entries };

    ghost invariant = { λ t. (repeats (keys_of t.entries) ≡ false) × (filter oversized t.entries ≡ []) };
}
