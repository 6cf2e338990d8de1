// Upkeep: time goes on by one tick, and old entries leave where that is due.
ghost use Rattle.std.specs.Prelude.{◌≡◌, None};
ghost use Rattle.shapes.specs.Answers.{refused_with, KeepsRefused};
ghost use Rattle.glyph_atlas.specs.Faults.{atlas_number};
ghost use Rattle.glyph_atlas.specs.Calls.{Maintained, KeptUp, no_upkeep};

use crate::atlas::GlyphAtlas;
use crate::fault::AtlasFault;
use crate::limit::AgeLimit;
use image_cache::cache::ImageCache;

impl GlyphAtlas {
    // Whether there can be upkeep now.
    fn may_advance(&self) -> Result<(), AtlasFault>
        ensures { refused_with atlas_number result ≡ no_upkeep self.now }
    {
        if self.clears.len() > 0 || self.uploads.len() > 0 || !self.pages.is_idle() {
            return Err(AtlasFault::Waits);
        }
        if self.tick == u64::MAX {
            return Err(AtlasFault::LastTick);
        }
        Ok(())
    }

    fn advance<C: ImageCache>(&mut self, cache: &mut C)
        requires { no_upkeep self.old ≡ None }
        ensures { KeptUp self.old (C.meaning cache.old) self.new (C.meaning cache.new) }
    {
        self.tick += 1;
        if self.tick.saturating_sub(self.last_due) < self.config.eviction_frequency {
            return;
        }
        self.last_due = self.tick;
        let limit = AgeLimit {
            tick: self.tick,
            age: self.config.max_entry_age,
        };
        self.table.evict(limit, &mut self.clears, cache);
    }

    // Refused with 8 while anything waits, and with 16 at the last tick.
    pub(crate) fn maintain<C: ImageCache>(&mut self, cache: &mut C) -> Result<(), AtlasFault>
        ensures maintains { Maintained self.old (C.meaning cache.old) result self.new (C.meaning cache.new) }
        ensures keeps { KeepsRefused result self.old self.new × KeepsRefused result cache.old cache.new }
    {
        self.may_advance()?;
        self.advance(cache);
        Ok(())
    }
}
