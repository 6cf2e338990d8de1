// The atlas and what it holds; contracts see the record `Atlas`, in lists and numbers.
ghost use Rattle.glyph_atlas.specs.Atlases.{Atlas};

use crate::config::GlyphCacheConfig;
use crate::pending::{PendingBitmapUpload, PendingClearRect};
use crate::table::EntryTable;
use atlas_pages::set::AtlasPages;
use lists::bounded::Bounded;
use std::marker::Model;

#[derive(Drop)]
pub struct GlyphAtlas {
    pub(crate) config: GlyphCacheConfig,
    pub(crate) table: EntryTable,
    // counts the calls of `maintain`
    pub(crate) tick: u64,
    // the tick at which ages were last looked at
    pub(crate) last_due: u64,
    pub(crate) hits: u64,
    pub(crate) misses: u64,
    pub(crate) clears: Bounded<PendingClearRect, 256>,
    pub(crate) uploads: Bounded<PendingBitmapUpload, 64>,
    pub(crate) pages: AtlasPages,
}

impl Model for GlyphAtlas {
    ghost Value = { Atlas };

    ghost view = { λ a. record {
      age = a.config.max_entry_age;
      frequency = a.config.eviction_frequency;
      entries = a.table;
      tick = a.tick;
      last_due = a.last_due;
      hits = a.hits;
      misses = a.misses;
      clears = a.clears;
      uploads = a.uploads;
      pages = a.pages;
    } };
}
