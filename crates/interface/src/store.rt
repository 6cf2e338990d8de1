// What a screen holds its calls in.
ghost use Rattle.std.specs.Prelude.{◌≡◌, ℕ, List};
ghost use Rattle.shapes.specs.Answers.{KeepsRefused};
ghost use Rattle.interface.specs.Screens.{Put};
ghost use Rattle.interface.specs.declared.call.Call.{Call};

use crate::call::Call;
use crate::fault::SinkFault;

// Holds calls, oldest first, and has places for so many more at least.
pub trait CallStore {
    ghost holds: { Self → List Call };

    ghost places: { Self → ℕ };

    fn places(&self) -> usize
        ensures { result ≡ places self.now };

    // Takes the call, and at most one place; refuses with 15 where none is free.
    fn put(&mut self, call: Call) -> Result<(), SinkFault>
        ensures puts { Put (holds self.old) (places self.old) call result (holds self.new) (places self.new) }
        ensures keeps { KeepsRefused result self.old self.new };
}
