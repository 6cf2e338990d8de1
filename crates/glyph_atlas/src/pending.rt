// What waits for the pages besides commands.
use interface::region::AtlasSlot;
use shapes::Pixmap;

// A bitmap that waits to be put on its page.
#[derive(Clone, Copy)]
pub struct PendingBitmapUpload {
    pub id: u32,
    pub pixmap: Pixmap,
    pub slot: AtlasSlot,
}

// A rectangle that has to be cleared before its place is painted again: whatever was there would show behind the next picture.
#[derive(Clone, Copy)]
pub struct PendingClearRect {
    pub page: u32,
    pub x: u16,
    pub y: u16,
    pub width: u16,
    pub height: u16,
}
