// One entry of the table.
use glyph_key::key::GlyphCacheKey;
use interface::region::AtlasSlot;

// A glyph that has a picture: its key, its place, and the tick of its last use.
#[derive(Clone, Copy)]
pub struct GlyphCacheEntry {
    pub key: GlyphCacheKey,
    pub slot: AtlasSlot,
    pub tick: u64,
}
