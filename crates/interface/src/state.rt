// Saved states, and what a screen keeps of them. A state is a token: code outside this crate can neither make one, nor take it apart, nor let it go, so
// whoever saves a screen's state gives it back to the screen.
ghost use Rattle.std.specs.Prelude.{◌≡◌};

use crate::fault::SinkFault;

// Names its screen and its depth. It is not Drop.
pub struct SavedState {
    pub(crate) screen: u32,
    pub(crate) depth: u64,
}

// A restore that is refused hands the state back.
pub struct RestoreRefused {
    pub state: SavedState,
    pub fault: SinkFault,
}

// What a screen keeps of its saved states: its own number, and how many it has saved and not restored.
#[derive(Drop)]
pub struct SavedStates {
    pub(crate) screen: u32,
    pub(crate) depth: u64,
}

impl SavedStates {
    pub fn new(screen: u32) -> SavedStates
        ensures { result ≡ record { screen = screen; depth = 0 } }
    {
        SavedStates { screen, depth: 0 }
    }

    pub fn screen(&self) -> u32
        ensures { result ≡ self.now.screen }
    {
        self.screen
    }

    pub fn depth(&self) -> u64
        ensures { result ≡ self.now.depth }
    {
        self.depth
    }
}
