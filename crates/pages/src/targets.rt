// Two page targets: one sends into a sink, one counts.
ghost use Rattle.std.specs.Prelude.{◌≡◌, ◌≤◌, map, length};
ghost use Rattle.shapes.specs.Answers.{KeepsRefused};
ghost use Rattle.interface.specs.Sinks.{Extended};
ghost use Rattle.interface.specs.declared.call.Call.TheVariants.{Command};
ghost use Rattle.pages.specs.Pages.{Sends, Counts};

use crate::recorder::AtlasCommandRecorder;
use crate::target::PageTarget;
use interface::fault::SinkFault;
use interface::sink::DrawSink;
use interface::values::AtlasCommand;
use std::convert::Infallible;

// Sends each page's commands, in order, into a sink; or nothing, and fails with 15, where it has too few places.
#[derive(Drop)]
pub struct SinkTarget<'a, S> {
    pub sink: &'a mut S,
}

fn send_all<S: DrawSink>(sink: &mut S, commands: &[AtlasCommand])
    requires { length commands.now ≤ (S.DrawSink.means sink.old).free }
    ensures { Extended (S.DrawSink.means sink.old) (map Command commands.now) (S.DrawSink.means sink.new) }
{
    for command in commands {
        sink.send(*command).unwrap();
    }
}

impl<'a, S: DrawSink> PageTarget for SinkTarget<'a, S> {
    type Failure = SinkFault;

    // a failed offer leaves the sink equal; and it is the lent sink all the while
    ghost takes = { λ t p r u. Sends p (S.DrawSink.means t.sink.now) r (S.DrawSink.means u.sink.now) × KeepsRefused r t.sink.now u.sink.now × (u.sink.ghost_name ≡ t.sink.ghost_name) };

    fn offer(&mut self, page: &AtlasCommandRecorder) -> Result<(), SinkFault> {
        let commands = page.commands();
        if self.sink.free_places() < commands.len() {
            return Err(SinkFault::NoPlace);
        }
        send_all(self.sink, commands);
        Ok(())
    }
}

// Counts the commands of the pages offered, up to 2^64 - 1.
#[derive(Clone, Copy)]
pub struct CommandCounter {
    pub count: u64,
}

impl PageTarget for CommandCounter {
    type Failure = Infallible;

    ghost takes = { λ t p r u. Counts p t.count r u.count };

    fn offer(&mut self, page: &AtlasCommandRecorder) -> Result<(), Infallible> {
        self.count = self.count.saturating_add(page.commands().len() as u64);
        Ok(())
    }
}
