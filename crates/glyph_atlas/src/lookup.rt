// Lookups: a hit is a use, and keeps its entry young.
ghost use Rattle.std.specs.Prelude.{◌≡◌};
ghost use Rattle.glyph_atlas.specs.Atlases.{raised};
ghost use Rattle.glyph_atlas.specs.Calls.{Got};

use crate::atlas::GlyphAtlas;
use glyph_key::key::GlyphCacheKey;
use interface::region::AtlasSlot;

// A counter stops at the largest number.
fn one_more(count: u64) -> u64
    ensures { result ≡ raised count }
{
    count.saturating_add(1)
}

impl GlyphAtlas {
    // The slot of that key, if there is an entry with it; the entry takes the present tick.
    pub fn get(&mut self, key: &GlyphCacheKey) -> Option<AtlasSlot>
        ensures { Got self.old key.now result self.new }
    {
        let Some(slot) = self.table.renew(key, self.tick) else {
            self.misses = one_more(self.misses);
            return None;
        };
        self.hits = one_more(self.hits);
        Some(slot)
    }
}
