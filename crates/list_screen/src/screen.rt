// The screen that is a list of at most 512 calls.
ghost use Rattle.std.specs.Prelude.{◌≡◌, [], IfOk};
ghost use Rattle.list_screen.specs.Listed.{listed, list_means};

use crate::list::CallList;
use interface::screen::Screen;
use interface::sink::DrawSink;
use shapes::Color;
use std::alloc::{AllocError, Global};

pub type ListScreen = Screen<CallList>;

impl CallList {
    // A screen over a new list, with a number of its own, and a colour. `draws`: of every such screen, what drawing does is said of `list_means`.
    pub fn screen(heap: Global, number: u32, colour: Color) -> Result<ListScreen, AllocError>
        ensures means { IfOk result (λ l. list_means l ≡ listed [] 0 number colour) }
        ensures draws { (l : _) → ⟦<ListScreen as DrawSink>⟧.means l ≡ list_means l }
    {
        let calls = CallList::new(heap)?;
        Ok(Screen::new(calls, number, colour))
    }
}
