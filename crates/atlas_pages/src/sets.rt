// What is done with all four pages. Only `new` asks for memory.
ghost use Rattle.std.specs.Prelude.{◌≡◌, false, map, IfOk};
ghost use Rattle.std.specs.List.{list_all, list_any, All};
ghost use Rattle.shapes.specs.Answers.{none, KeepsRefused};
ghost use Rattle.pages.specs.Pages.{emptied, filled};
ghost use Rattle.atlas_pages.specs.Sets.{numbers, page_numbers, Fits};
ghost use Rattle.atlas_pages.specs.AllPages.{blank, crowded, any_crowded, add_commands, RecordedOn, Offers};

use crate::set::{AtlasPages, PAGES};
use interface::fault::SinkFault;
use interface::sink::DrawSink;
use interface::values::AtlasCommand;
use pages::recorder::AtlasCommandRecorder;
use pages::target::PageTarget;
use std::alloc::{AllocError, Global};
use std::array;

// Commands that are recorded for a page at once.
const COMMANDS: usize = 3;

// A recorder for each page, with no command.
fn blank_recorders(heap: Global) -> Result<[AtlasCommandRecorder; PAGES], AllocError>
    ensures { IfOk result (λ ps. ps ≡ map blank page_numbers) }
{
    array::try_from_fn(|page| AtlasCommandRecorder::new(heap, page as u32))
}

// No command waits for any of these pages.
fn all_idle(recorders: &[AtlasCommandRecorder]) -> bool
    ensures { result ≡ list_all (λ p. none p.commands) recorders.now }
{
    recorders.iter().all(|recorder| recorder.is_empty())
}

// Some of these pages has too few places for commands to be recorded at once.
fn one_crowded(recorders: &[AtlasCommandRecorder]) -> bool
    ensures { result ≡ list_any crowded recorders.now }
{
    recorders
        .iter()
        .any(|recorder| recorder.free_places() < COMMANDS)
}

// Offers every page that has a command, up to the first that fails.
fn offer_to<T: PageTarget>(
    recorders: &[AtlasCommandRecorder],
    target: &mut T,
) -> Result<(), T::Failure>
    ensures { Offers T.PageTarget.takes (filled recorders.now) target.old result target.new }
{
    for recorder in recorders {
        if !recorder.is_empty() {
            target.offer(recorder)?;
        }
    }
    Ok(())
}

// No command waits for these pages any more.
fn clear_all(recorders: &mut [AtlasCommandRecorder])
    ensures { recorders.new ≡ map emptied recorders.old }
{
    for recorder in recorders.iter_mut() {
        recorder.clear();
    }
}

// Adds the commands if it is the page of that number.
fn add_if(recorder: &mut AtlasCommandRecorder, page: u32, commands: &[AtlasCommand; COMMANDS])
    requires { crowded recorder.old ≡ false }
    ensures { recorder.new ≡ add_commands page commands.now recorder.old }
{
    if recorder.page() == page {
        recorder.record(commands).unwrap();
    }
}

// Adds the commands to the page of that number.
fn add_to(recorders: &mut [AtlasCommandRecorder], page: u32, commands: [AtlasCommand; COMMANDS])
    requires { any_crowded recorders.old ≡ false }
    ensures { recorders.new ≡ map (add_commands page commands) recorders.old }
{
    for recorder in recorders.iter_mut() {
        add_if(recorder, page, &commands);
    }
}

impl AtlasPages {
    pub fn new(heap: Global) -> Result<AtlasPages, AllocError>
        ensures { IfOk result (λ s. s ≡ map blank page_numbers) }
    {
        let recorders = blank_recorders(heap)?;
        Ok(AtlasPages { recorders })
    }

    // No command waits for any page.
    pub fn is_idle(&self) -> bool
        ensures { result ≡ none (filled self.now) }
    {
        all_idle(&self.recorders)
    }

    // Some page has fewer than 3 of its 120 places free.
    pub fn is_crowded(&self) -> bool
        ensures crowded { result ≡ any_crowded self.now }
        ensures numbered { numbers self.now ≡ page_numbers }
        ensures fits { All Fits self.now }
    {
        one_crowded(&self.recorders)
    }

    // Records the commands for the page of that number; refused with 15 where some page is crowded.
    pub fn record(&mut self, page: u32, commands: [AtlasCommand; COMMANDS]) -> Result<(), SinkFault>
        ensures records { RecordedOn self.old page commands result self.new }
        ensures keeps { KeepsRefused result self.old self.new }
    {
        if self.is_crowded() {
            return Err(SinkFault::NoPlace);
        }
        add_to(&mut self.recorders, page, commands);
        Ok(())
    }

    // Offers every page that has a command, in order, up to the first that fails, and answers its failure.
    pub fn offer_all<T: PageTarget>(&self, target: &mut T) -> Result<(), T::Failure>
        ensures offers { Offers T.PageTarget.takes (filled self.now) target.old result target.new }
        ensures numbered { numbers self.now ≡ page_numbers }
    {
        offer_to(&self.recorders, target)
    }

    // No command waits any more.
    pub fn clear(&mut self)
        ensures empties { self.new ≡ map emptied self.old }
        ensures blank { self.new ≡ map blank page_numbers }
    {
        clear_all(&mut self.recorders);
    }
}
