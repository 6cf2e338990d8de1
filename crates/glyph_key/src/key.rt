// Keys, and what goes into one.

#[derive(Clone, Copy, PartialEq, Eq, Hash)]
pub enum Join {
    Bevel,
    Miter,
    Round,
}

// Synthetic embolden: four numbers and a join style.
#[derive(Clone, Copy)]
pub struct FontEmbolden {
    pub amount_x: f64,
    pub amount_y: f64,
    pub join: Join,
    pub miter_limit: f64,
    pub tolerance: f64,
}

// What a key is made from, besides the fraction of a pixel and the axis values.
#[derive(Clone, Copy)]
pub struct KeyParts {
    pub font_id: u64,
    pub font_index: u32,
    pub glyph_id: u32,
    pub size: f32,
    pub hinted: bool,
    pub context_color_packed: u32,
    pub embolden: FontEmbolden,
}

// The numbers of a key as f32 bit patterns.
#[derive(Clone, Copy, PartialEq, Eq, Hash)]
pub struct KeyBits {
    pub size: u32,
    pub embolden_x: u32,
    pub embolden_y: u32,
    pub miter_limit: u32,
    pub tolerance: u32,
}

pub(crate) const MOST_AXES: usize = 8;

// The axis values of a variable font: how many there are, and a place for each of eight; a place that is not used is zero.
#[derive(Clone, Copy, PartialEq, Eq, Hash)]
pub(crate) struct Axes {
    pub(crate) count: u8,
    pub(crate) places: [i16; MOST_AXES],
}

// What has to agree for two glyphs to share a picture.
// Keys come from this crate alone, so that the unused places of every key are zero and comparing all places compares the values.
#[derive(Clone, Copy, PartialEq, Eq, Hash)]
pub struct GlyphCacheKey {
    pub(crate) font_id: u64,
    pub(crate) font_index: u32,
    pub(crate) glyph_id: u32,
    pub(crate) bits: KeyBits,
    pub(crate) hinted: bool,
    pub(crate) subpixel_x: u8,
    pub(crate) context_color_packed: u32,
    pub(crate) join: Join,
    pub(crate) axes: Axes,
}
