// A list of at most 512 calls, which a screen holds its calls in. Only `new` asks for memory.
ghost use Rattle.std.specs.Prelude.{◌≡◌, ◌-◌, ◌≤◌, [], length, IfOk};
ghost use Rattle.list_screen.specs.declared.list.TheConstants.{PLACES};

use interface::call::Call;
use interface::fault::SinkFault;
use interface::store::CallStore;
use lists::bounded::Bounded;
use std::alloc::{AllocError, Global};

// Calls at most.
pub(crate) const PLACES: usize = 512;

#[derive(Drop)]
pub struct CallList {
    pub(crate) list: Bounded<Call, PLACES>,
}

impl CallList {
    pub(crate) fn new(heap: Global) -> Result<CallList, AllocError>
        ensures { IfOk result (λ l. l.list ≡ []) }
    {
        let list = Bounded::new(heap)?;
        Ok(CallList { list })
    }

    // The calls, oldest first.
    pub fn as_slice(&self) -> &[Call]
        ensures value { result.now ≡ ⟦<CallList as CallStore>⟧.holds self.now }
        ensures fits { length result.now ≤ 512 }
    {
        self.list.as_slice()
    }
}

impl CallStore for CallList {
    ghost holds = { λ l. l.list };

    ghost places = { λ l. PLACES - length l.list };

    fn places(&self) -> usize {
        self.list.free_places()
    }

    fn put(&mut self, call: Call) -> Result<(), SinkFault> {
        self.list.push(call).map_err(|_| SinkFault::NoPlace)
    }
}
