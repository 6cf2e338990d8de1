// Starting over.
ghost use Rattle.glyph_atlas.specs.Calls.{Emptied, Uncounted};

use crate::atlas::GlyphAtlas;

impl GlyphAtlas {
    // The counters start again.
    pub fn clear_stats(&mut self)
        ensures { Uncounted self.old self.new }
    {
        self.hits = 0;
        self.misses = 0;
    }

    // Everything starts again; the images stay in the cache.
    pub fn clear(&mut self)
        ensures { Emptied self.old self.new }
    {
        self.pages.clear();
        self.clear_stats();
        self.table.clear();
        self.clears.clear();
        self.uploads.clear();
        self.tick = 0;
        self.last_due = 0;
    }
}
