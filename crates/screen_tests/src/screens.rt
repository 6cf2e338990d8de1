// The list of calls that the tests draw on.
use list_screen::list::CallList;
use list_screen::screen::ListScreen;
use shapes::Color;
use std::alloc::{AllocError, Global};

// A screen of that number, whose colour is all zeros.
pub(crate) fn numbered(heap: Global, number: u32) -> Result<ListScreen, AllocError> {
    CallList::screen(heap, number, Color::from_bits(0, 0, 0, 0))
}
