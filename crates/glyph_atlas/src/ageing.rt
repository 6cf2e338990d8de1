// Old entries leave the table: their images are freed, and their places wait to be cleared.
ghost use Rattle.std.specs.Prelude.{◌≡◌, ◌+◌, ◌≤◌, [], ◌++◌, map, length, filter};
ghost use Rattle.glyph_atlas.specs.Atlases.{padded};
ghost use Rattle.glyph_atlas.specs.Calls.{FreedAll, slot_of, image_id};
ghost use Rattle.glyph_atlas.specs.Shape.{oversized};
ghost use Rattle.glyph_atlas.specs.Places.{aged, unaged};

use crate::entry::GlyphCacheEntry;
use crate::limit::AgeLimit;
use crate::pending::PendingClearRect;
use crate::slots::PADDING;
use crate::table::EntryTable;
use image_cache::cache::ImageCache;
use interface::region::AtlasSlot;
use lists::bounded::Bounded;
use lists::test::Test;

// The slot with one pixel more on every side.
fn pad(slot: AtlasSlot) -> PendingClearRect
    requires { (slot.width ≤ 65533) × (slot.height ≤ 65533) }
    ensures { result ≡ padded slot }
{
    PendingClearRect {
        page: slot.page,
        x: slot.x.saturating_sub(1),
        y: slot.y.saturating_sub(1),
        width: slot.width + PADDING,
        height: slot.height + PADDING,
    }
}

impl AgeLimit {
    fn is_past(self, entry: &GlyphCacheEntry) -> bool
        ensures { result ≡ aged self entry.now }
    {
        self.tick.saturating_sub(entry.tick) > self.age
    }
}

fn free_old<C: ImageCache>(
    entries: &[GlyphCacheEntry],
    limit: AgeLimit,
    clears: &mut Bounded<PendingClearRect, 256>,
    cache: &mut C,
)
    requires room { length clears.old + length entries.now ≤ 256 }
    requires sized { filter oversized entries.now ≡ [] }
    ensures clears { clears.new ≡ clears.old ++ map padded (map slot_of (filter (aged limit) entries.now)) }
    ensures images { FreedAll (C.meaning cache.old) (map image_id (map slot_of (filter (aged limit) entries.now))) (C.meaning cache.new) }
{
    for entry in entries {
        if limit.is_past(entry) {
            // an image that is not live any more is passed over
            let _ = cache.free(entry.slot.id);
            let _ = clears.push(pad(entry.slot));
        }
    }
}

// The entries that stay.
impl Test<GlyphCacheEntry> for AgeLimit {
    ghost accepts = { unaged };

    fn passes(&self, entry: &GlyphCacheEntry) -> bool {
        !self.is_past(entry)
    }
}

impl EntryTable {
    // No clear may wait yet, so that there is a place for each.
    pub(crate) fn evict<C: ImageCache>(
        &mut self,
        limit: AgeLimit,
        clears: &mut Bounded<PendingClearRect, 256>,
        cache: &mut C,
    )
        requires { clears.old ≡ [] }
        ensures stay { self.new ≡ filter (unaged limit) self.old }
        ensures clears { clears.new ≡ clears.old ++ map padded (map slot_of (filter (aged limit) self.old)) }
        ensures images { FreedAll (C.meaning cache.old) (map image_id (map slot_of (filter (aged limit) self.old))) (C.meaning cache.new) }
    {
        free_old(self.entries.as_slice(), limit, clears, cache);
        self.entries.retain(&limit);
    }
}
