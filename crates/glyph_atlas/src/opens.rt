// New atlases.
ghost use Rattle.std.specs.Prelude.{◌≡◌, IfOk};
ghost use Rattle.glyph_atlas.specs.Atlases.{Unused, config_of, default_config};

use crate::atlas::GlyphAtlas;
use crate::config::GlyphCacheConfig;
use crate::table::EntryTable;
use atlas_pages::set::AtlasPages;
use lists::bounded::Bounded;
use std::alloc::{AllocError, Global};

impl GlyphAtlas {
    // All memory is taken here, and no later call wants any.
    pub fn with_config(heap: Global, config: GlyphCacheConfig) -> Result<GlyphAtlas, AllocError>
        ensures { IfOk result (λ a. Unused a × (config_of a ≡ config)) }
    {
        let table = EntryTable::new(heap)?;
        let clears = Bounded::new(heap)?;
        let uploads = Bounded::new(heap)?;
        let pages = AtlasPages::new(heap)?;
        Ok(GlyphAtlas {
            config,
            table,
            tick: 0,
            last_due: 0,
            hits: 0,
            misses: 0,
            clears,
            uploads,
            pages,
        })
    }

    pub fn new(heap: Global) -> Result<GlyphAtlas, AllocError>
        ensures { IfOk result (λ a. Unused a × (config_of a ≡ default_config)) }
    {
        GlyphAtlas::with_config(heap, GlyphCacheConfig::default())
    }
}
