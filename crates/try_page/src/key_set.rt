// Keys, each once, in the order in which they came.
ghost use Rattle.std.specs.Prelude.{◌≡◌, not, IfOk};
ghost use Rattle.indexmap.specs.IndexSet.{IsEmpty, IsUnique, index_set_len};
ghost use Rattle.glyph_key.specs.Keys.{same_key};
ghost use Rattle.try_page.specs.Once.{known, IsWith};

use glyph_key::key::GlyphCacheKey;
use indexmap::IndexSet;
use std::alloc::{AllocError, Global};

#[derive(Drop)]
pub struct KeySet {
    items: IndexSet<GlyphCacheKey>,
}

impl KeySet {
    pub fn new(heap: Global) -> KeySet
        ensures { IsEmpty result.items }
    {
        KeySet {
            items: IndexSet::new(heap),
        }
    }

    // No two keys of the set are the same, so that this is how many different ones came.
    pub fn len(&self) -> usize
        ensures count { result ≡ index_set_len self.now.items }
        ensures once { IsUnique same_key self.now.items }
    {
        self.items.len()
    }

    pub fn has(&self, key: &GlyphCacheKey) -> bool
        ensures { result ≡ known self.now.items key.now }
    {
        self.items.contains(key)
    }

    // Whether the key is new, and then it is added, after those that came before.
    pub fn add(&mut self, key: GlyphCacheKey) -> Result<bool, AllocError>
        ensures { IfOk result (λ new. (new ≡ not (known self.old.items key)) × IsWith self.old.items key self.new.items) }
    {
        Ok(self.items.insert(key)?)
    }
}
