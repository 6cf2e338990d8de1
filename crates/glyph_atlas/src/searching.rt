// The entry of a key: whether there is one, and its use.
ghost use Rattle.std.specs.Prelude.{◌≡◌, is_some};
ghost use Rattle.glyph_atlas.specs.Atlases.{lookup};
ghost use Rattle.glyph_atlas.specs.Places.{PlaceOf, Renewed};

use crate::entry::GlyphCacheEntry;
use crate::table::EntryTable;
use glyph_key::key::GlyphCacheKey;
use interface::region::AtlasSlot;

impl EntryTable {
    fn place_of(&self, key: &GlyphCacheKey) -> Option<usize>
        ensures { PlaceOf key.now self.now result }
    {
        self.entries
            .as_slice()
            .iter()
            .position(|entry| entry.key.same(key))
    }

    pub(crate) fn has(&self, key: &GlyphCacheKey) -> bool
        ensures { result ≡ is_some (lookup key.now self.now) }
    {
        self.place_of(key).is_some()
    }

    // The slot of that key, whose entry takes the tick, if there is an entry with it.
    pub(crate) fn renew(&mut self, key: &GlyphCacheKey, tick: u64) -> Option<AtlasSlot>
        ensures { Renewed key.now tick self.old result self.new }
    {
        let i = self.place_of(key)?;
        let entry = self.entries.as_slice()[i];
        self.entries.put(i, GlyphCacheEntry { tick, ..entry });
        Some(entry.slot)
    }
}
