// Reading and comparing keys.
ghost use Rattle.std.specs.Prelude.{◌≡◌, Decides};
ghost use Rattle.glyph_key.specs.Keys.{same_key, bits_of};

use crate::key::{GlyphCacheKey, Join, KeyBits};

impl GlyphCacheKey {
    pub fn bucket(&self) -> u8
        ensures { result ≡ self.now.subpixel_x }
    {
        self.subpixel_x
    }

    pub fn join(&self) -> Join
        ensures { result ≡ self.now.join }
    {
        self.join
    }

    pub fn bits(&self) -> KeyBits
        ensures { result ≡ bits_of self.now }
    {
        self.bits
    }

    // Whether the two may share a picture.
    pub fn same(&self, other: &GlyphCacheKey) -> bool
        ensures value { result ≡ same_key self.now other.now }
        ensures equality { Decides result (self.now ≡ other.now) }
    {
        *self == *other
    }
}
