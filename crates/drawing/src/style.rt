// How a glyph's outline is painted.
#[derive(Clone, Copy)]
pub enum Style {
    Fill,
    Stroke,
}
