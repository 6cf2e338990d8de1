// A page recorder as a sink with places for 120 commands, and what else it does.
ghost use Rattle.std.specs.Prelude.{◌≡◌, ◌≤◌, [], length, IfOk};
ghost use Rattle.shapes.specs.Answers.{none, KeepsRefused};
ghost use Rattle.pages.specs.Pages.{emptied, Recorded};
ghost use Rattle.pages.specs.Recorders.{recorder_means};

use crate::recorder::AtlasCommandRecorder;
use interface::fault::SinkFault;
use interface::sink::DrawSink;
use interface::values::AtlasCommand;
use lists::bounded::{Bounded, Full};
use std::alloc::{AllocError, Global};

// A full list of commands is a page with no place left.
fn no_place(_: Full) -> SinkFault
    ensures { result ≡ SinkFault.NoPlace }
{
    SinkFault::NoPlace
}

impl AtlasCommandRecorder {
    pub fn new(heap: Global, page: u32) -> Result<AtlasCommandRecorder, AllocError>
        ensures { IfOk result (λ p. p ≡ record { number = page; commands = [] }) }
    {
        let commands = Bounded::new(heap)?;
        Ok(AtlasCommandRecorder { page, commands })
    }

    pub fn page(&self) -> u32
        ensures { result ≡ self.now.number }
    {
        self.page
    }

    pub fn commands(&self) -> &[AtlasCommand]
        ensures value { result.now ≡ self.now.commands }
        ensures fits { length self.now.commands ≤ 120 }
    {
        self.commands.as_slice()
    }

    pub fn is_empty(&self) -> bool
        ensures { result ≡ none self.now.commands }
    {
        self.commands().is_empty()
    }

    // Records all of the commands; refused with 15 where there are too few places, and then records none.
    pub fn record(&mut self, commands: &[AtlasCommand]) -> Result<(), SinkFault>
        ensures records { Recorded self.old commands.now result self.new }
        ensures keeps { KeepsRefused result self.old self.new }
    {
        self.commands.extend_from_slice(commands).map_err(no_place)
    }

    pub fn clear(&mut self)
        ensures { self.new ≡ emptied self.old }
    {
        self.commands.clear();
    }
}

impl DrawSink for AtlasCommandRecorder {
    ghost means = { recorder_means };

    fn free_places(&self) -> usize {
        self.commands.free_places()
    }

    fn send(&mut self, command: AtlasCommand) -> Result<(), SinkFault> {
        self.commands.push(command).map_err(no_place)
    }
}
