// The screen over any store of calls.
ghost use Rattle.std.specs.Prelude.{◌≡◌, ◌^◌, ◌<◌, ◌≤◌};
ghost use Rattle.shapes.specs.Answers.{KeepsRefused};
ghost use Rattle.interface.specs.Sinks.{Sent};
ghost use Rattle.interface.specs.Screens.{screen_of};

use crate::call::Call;
use crate::fault::SinkFault;
use crate::region::AtlasSlot;
use crate::sink::{DrawSink, GlyphRenderer};
use crate::state::{RestoreRefused, SavedState, SavedStates};
use crate::store::CallStore;
use crate::values::{AtlasCommand, ImageSource, PaintImage};
use shapes::{Affine, Color, Path};

// Each state still saved keeps a place for its restore, so that a restore is never refused for want of a place.
#[derive(Drop)]
pub struct Screen<C: CallStore> {
    pub(crate) calls: C,
    pub(crate) states: SavedStates,
    pub(crate) colour: Color,
    ghost room: { states.depth ≤ C.places calls },
}

impl<C: CallStore> Screen<C> {
    // A screen with a number of its own, and a colour; no state is saved yet.
    pub fn new(calls: C, number: u32, colour: Color) -> Screen<C>
        ensures means { ⟦<Screen<C> as DrawSink>⟧.means result ≡ screen_of (C.holds calls) (C.places calls) 0 number colour }
        ensures holds { result.calls ≡ calls }
    {
        Screen {
            calls,
            states: SavedStates::new(number),
            colour,
        }
    }

    // What holds the calls.
    pub fn calls(&self) -> &C
        ensures { result.now ≡ self.now.calls }
    {
        &self.calls
    }

    fn free(&self) -> usize
        ensures free { result ≡ (⟦<Screen<C> as DrawSink>⟧.means self.now).free }
        ensures few { C.places self.now.calls < 2 ^ 64 }
    {
        self.calls.places() - self.states.depth() as usize
    }

    fn append(&mut self, call: Call) -> Result<(), SinkFault>
        ensures sends { Sent (⟦<Screen<C> as DrawSink>⟧.means self.old) call result (⟦<Screen<C> as DrawSink>⟧.means self.new) }
        ensures keeps { KeepsRefused result self.old self.new }
    {
        if self.free() == 0 {
            return Err(SinkFault::NoPlace);
        }
        self.calls.put(call)
    }
}

impl<C: CallStore> DrawSink for Screen<C> {
    ghost means = { λ s. screen_of (C.holds s.calls) (C.places s.calls) s.states.depth s.states.screen s.colour };

    fn free_places(&self) -> usize {
        self.free()
    }

    fn send(&mut self, command: AtlasCommand) -> Result<(), SinkFault> {
        self.append(Call::Command(command))
    }
}

impl<C: CallStore> GlyphRenderer for Screen<C> {
    // Two places, so that the restore finds one.
    fn save_state(&mut self) -> Result<SavedState, SinkFault> {
        if self.free() < 2 {
            return Err(SinkFault::NoPlace);
        }
        self.calls.put(Call::SaveState)?;
        self.states.issue()
    }

    fn restore_state(&mut self, state: SavedState) -> Result<(), RestoreRefused> {
        self.states.take_back(state)?;
        self.calls.put(Call::RestoreState).unwrap();
        Ok(())
    }

    fn stroke_path(&mut self, path: Path) -> Result<(), SinkFault> {
        self.append(Call::StrokePath(path))
    }

    fn set_paint_image(&mut self, image: PaintImage) -> Result<(), SinkFault> {
        self.append(Call::SetPaintImage(image.picture()))
    }

    fn set_tint(&mut self, tint: Option<Color>) -> Result<(), SinkFault> {
        self.append(Call::SetTint(tint))
    }

    fn get_context_color(&self) -> Color {
        self.colour
    }

    fn atlas_image_source(&self, slot: AtlasSlot) -> ImageSource {
        slot.page_image()
    }

    fn atlas_paint_transform(&self, slot: AtlasSlot) -> Affine {
        slot.paint_transform()
    }
}
