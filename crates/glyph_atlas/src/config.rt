// When entries leave.
ghost use Rattle.std.specs.Prelude.{◌≡◌};
ghost use Rattle.glyph_atlas.specs.Atlases.{default_config};

// An entry leaves when it was not used for more than `max_entry_age` ticks; that is looked at every `eviction_frequency` ticks, where 0 acts as 1.
#[derive(Clone, Copy)]
pub struct GlyphCacheConfig {
    pub max_entry_age: u64,
    pub eviction_frequency: u64,
}

// An entry may be idle for 64 ticks, and every 64 ticks that is looked at.
impl Default for GlyphCacheConfig {
    ghost is_default = { λ c. c ≡ default_config };

    fn default() -> GlyphCacheConfig {
        GlyphCacheConfig {
            max_entry_age: 64,
            eviction_frequency: 64,
        }
    }
}
