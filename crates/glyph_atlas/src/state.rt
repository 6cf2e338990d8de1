// Looking at an atlas.
ghost use Rattle.std.specs.Prelude.{◌≡◌, ◌≤◌, false, [], length, filter};
ghost use Rattle.shapes.specs.Answers.{none};
ghost use Rattle.glyph_key.specs.Once.{repeats};
ghost use Rattle.glyph_atlas.specs.Atlases.{config_of};
ghost use Rattle.glyph_atlas.specs.Shape.{keys_of, oversized};

use crate::atlas::GlyphAtlas;
use crate::config::GlyphCacheConfig;

impl GlyphAtlas {
    pub fn config(&self) -> GlyphCacheConfig
        ensures { result ≡ config_of self.now }
    {
        self.config
    }

    // How many entries there are: at most 256, each key once, and every slot small enough that its padding fits 16 bits.
    pub fn len(&self) -> usize
        ensures value { result ≡ length self.now.entries }
        ensures few { result ≤ 256 }
        ensures once { repeats (keys_of self.now.entries) ≡ false }
        ensures sized { filter oversized self.now.entries ≡ [] }
    {
        self.table.len()
    }

    pub fn is_empty(&self) -> bool
        ensures { result ≡ none self.now.entries }
    {
        self.len() == 0
    }

    pub fn cache_hits(&self) -> u64
        ensures { result ≡ self.now.hits }
    {
        self.hits
    }

    pub fn cache_misses(&self) -> u64
        ensures { result ≡ self.now.misses }
    {
        self.misses
    }
}
