// Saved states, handed out and taken back.
ghost use Rattle.interface.specs.States.{Issued, TakenBack};

use crate::fault::SinkFault;
use crate::state::{RestoreRefused, SavedState, SavedStates};

impl SavedStates {
    // One state more; refused with 15 where 2^64 - 1 are saved already.
    pub fn issue(&mut self) -> Result<SavedState, SinkFault>
        ensures { Issued self.old result self.new }
    {
        self.depth = self.depth.checked_add(1).ok_or(SinkFault::NoPlace)?;
        Ok(SavedState {
            screen: self.screen,
            depth: self.depth,
        })
    }

    // One state less; refused with 10 where it is not the latest of this screen, and then handed back.
    pub fn take_back(&mut self, state: SavedState) -> Result<(), RestoreRefused>
        ensures { TakenBack self.old state result self.new }
    {
        if state.screen != self.screen || state.depth != self.depth || self.depth == 0 {
            return Err(RestoreRefused {
                state,
                fault: SinkFault::NotLatest,
            });
        }
        let SavedState {
            screen: _,
            depth: _,
        } = state;
        self.depth -= 1;
        Ok(())
    }
}
