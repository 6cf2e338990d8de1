// New entries.
ghost use Rattle.std.specs.Prelude.{◌≡◌, [], ◌∷◌, ◌++◌, if◌then◌else◌, None, Ok, Err};
ghost use Rattle.shapes.specs.Answers.{refused_with, KeepsRefused};
ghost use Rattle.raster.specs.declared.fault.RasterFault.TheVariants.{Metrics};
ghost use Rattle.raster.specs.Metric.{too_large};
ghost use Rattle.glyph_atlas.specs.Atlases.{new_entry};
ghost use Rattle.glyph_atlas.specs.Faults.{atlas_number};
ghost use Rattle.glyph_atlas.specs.Calls.{Inserted};
ghost use Rattle.glyph_atlas.specs.Places.{barred, grown};

use crate::atlas::GlyphAtlas;
use crate::entry::GlyphCacheEntry;
use crate::fault::AtlasFault;
use crate::slots::{PADDING, place};
use crate::table::MOST_ENTRIES;
use glyph_key::key::GlyphCacheKey;
use image_cache::cache::ImageCache;
use interface::region::AtlasSlot;
use raster::fault::RasterFault;
use raster::glyph::RasterMetrics;

// The widest and highest picture whose padding fits 16 bits.
const LARGEST: u16 = u16::MAX - PADDING;

fn measured(metrics: RasterMetrics) -> Result<(), RasterFault>
    ensures { result ≡ (if too_large metrics then Err Metrics else Ok tt) }
{
    if metrics.width > LARGEST || metrics.height > LARGEST {
        return Err(RasterFault::Metrics);
    }
    Ok(())
}

impl GlyphAtlas {
    // Whether the atlas itself has a place for an entry of that key.
    fn admit(&self, key: &GlyphCacheKey, metrics: RasterMetrics) -> Result<(), AtlasFault>
        ensures { refused_with atlas_number result ≡ barred self.now.entries key.now metrics }
    {
        measured(metrics)?;
        if self.table.has(key) {
            return Err(AtlasFault::KeyHeld);
        }
        if self.table.len() >= MOST_ENTRIES {
            return Err(AtlasFault::Full);
        }
        Ok(())
    }

    fn enter(&mut self, key: GlyphCacheKey, slot: AtlasSlot)
        requires { barred self.old.entries key (record { width = slot.width; height = slot.height; left = slot.left; top = slot.top }) ≡ None }
        ensures { self.new ≡ grown self.old (self.old.entries ++ new_entry key slot self.old.tick ∷ []) }
    {
        self.table.add(GlyphCacheEntry {
            key,
            slot,
            tick: self.tick,
        });
    }

    // Makes an entry for a picture of those metrics; refused with 5, 6, 12 or 14.
    pub fn insert<C: ImageCache>(
        &mut self,
        cache: &mut C,
        key: GlyphCacheKey,
        metrics: RasterMetrics,
    ) -> Result<(AtlasSlot, u32), AtlasFault>
        ensures inserts { Inserted self.old (C.meaning cache.old) key metrics result self.new (C.meaning cache.new) }
        ensures keeps { KeepsRefused result self.old self.new × KeepsRefused result cache.old cache.new }
    {
        self.admit(&key, metrics)?;
        let slot = place(cache, metrics)?;
        self.enter(key, slot);
        Ok((slot, slot.page))
    }
}
