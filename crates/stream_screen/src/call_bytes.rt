// Calls as bytes in a lent buffer, which a screen holds its calls in: whole records, one after the other.
ghost use Rattle.std.specs.Prelude.{◌≡◌, ◌-◌, ◌/◌, ◌≤◌, length};
ghost use Rattle.stream_screen.specs.Stream.{place, stream_of};
ghost use Rattle.stream_screen.specs.Reads.{calls_in, Whole};
ghost use Rattle.stream_screen.specs.Writes.{written};

use crate::writer::Writer;
use interface::call::Call;
use interface::fault::SinkFault;
use interface::store::CallStore;

// The bytes of a place: no record is longer.
pub(crate) const PLACE: usize = 52;

#[derive(Drop)]
pub struct CallBytes<'a> {
    pub(crate) writer: Writer<'a>,
    ghost within: { writer.used ≤ length writer.out.now },
    ghost whole: { Whole (written writer) },
}

impl<'a> CallBytes<'a> {
    pub(crate) fn new(out: &'a mut [u8]) -> CallBytes<'a>
        ensures used { result.writer.used ≡ 0 }
        ensures out { result.writer.out ≡ out.entry }
    {
        CallBytes {
            writer: Writer { out, used: 0 },
        }
    }

    // The records of the calls, one after the other.
    pub fn bytes(&self) -> &[u8]
        ensures { result.now ≡ stream_of (⟦<CallBytes<'a> as CallStore>⟧.holds self.now) }
    {
        &self.writer.out[..self.writer.used]
    }
}

impl<'a> CallStore for CallBytes<'a> {
    ghost holds = { λ b. calls_in (written b.writer) };

    ghost places = { λ b. (length b.writer.out.now - b.writer.used) / place };

    fn places(&self) -> usize {
        (self.writer.out.len() - self.writer.used) / PLACE
    }

    fn put(&mut self, call: Call) -> Result<(), SinkFault> {
        if self.places() == 0 {
            return Err(SinkFault::NoPlace);
        }
        self.writer.put_call(call);
        Ok(())
    }
}
