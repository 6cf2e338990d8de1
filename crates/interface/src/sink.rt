// The two traits of what can be drawn into, by one meaning.
ghost use Rattle.std.specs.Prelude.{◌≡◌};
ghost use Rattle.shapes.specs.Answers.{KeepsRefused};
ghost use Rattle.interface.specs.Pictures.{pictured};
ghost use Rattle.interface.specs.Sinks.{Sink, Sent, Saved, Restored};
ghost use Rattle.interface.specs.declared.call.Call.TheVariants.{Command, StrokePath, SetPaintImage, SetTint};
ghost use Rattle.interface.specs.declared.values.AtlasCommand.TheVariants.{SetTransform, SetPaint, SetPaintTransform, FillPath, FillRect, PushClipLayer, PushClipPath, PushClipRect, PushBlendLayer, PopLayer, PopClipPath};

use crate::fault::SinkFault;
use crate::region::AtlasSlot;
use crate::state::{RestoreRefused, SavedState};
use crate::values::{AtlasCommand, AtlasPaint, BlendMode, ImageSource, PaintImage};
use shapes::{Affine, Color, Path, Rect};

// Takes commands, while it has places for them. A kind of sink says how it takes a command; each of the eleven calls sends its own.
pub trait DrawSink {
    ghost means: { Self → Sink };

    fn free_places(&self) -> usize
        ensures { result ≡ (means self.now).free };

    fn send(&mut self, command: AtlasCommand) -> Result<(), SinkFault>
        ensures sends { Sent (means self.old) (Command command) result (means self.new) }
        ensures keeps { KeepsRefused result self.old self.new };

    fn set_transform(&mut self, t: Affine) -> Result<(), SinkFault>
        ensures sends { Sent (means self.old) (Command (SetTransform t)) result (means self.new) }
        ensures keeps { KeepsRefused result self.old self.new }
    {
        self.send(AtlasCommand::SetTransform(t))
    }

    fn set_paint(&mut self, paint: AtlasPaint) -> Result<(), SinkFault>
        ensures sends { Sent (means self.old) (Command (SetPaint paint)) result (means self.new) }
        ensures keeps { KeepsRefused result self.old self.new }
    {
        self.send(AtlasCommand::SetPaint(paint))
    }

    fn set_paint_transform(&mut self, t: Affine) -> Result<(), SinkFault>
        ensures sends { Sent (means self.old) (Command (SetPaintTransform t)) result (means self.new) }
        ensures keeps { KeepsRefused result self.old self.new }
    {
        self.send(AtlasCommand::SetPaintTransform(t))
    }

    fn fill_path(&mut self, path: Path) -> Result<(), SinkFault>
        ensures sends { Sent (means self.old) (Command (FillPath path)) result (means self.new) }
        ensures keeps { KeepsRefused result self.old self.new }
    {
        self.send(AtlasCommand::FillPath(path))
    }

    fn fill_rect(&mut self, rect: Rect) -> Result<(), SinkFault>
        ensures sends { Sent (means self.old) (Command (FillRect rect)) result (means self.new) }
        ensures keeps { KeepsRefused result self.old self.new }
    {
        self.send(AtlasCommand::FillRect(rect))
    }

    fn push_clip_layer(&mut self, clip: Path) -> Result<(), SinkFault>
        ensures sends { Sent (means self.old) (Command (PushClipLayer clip)) result (means self.new) }
        ensures keeps { KeepsRefused result self.old self.new }
    {
        self.send(AtlasCommand::PushClipLayer(clip))
    }

    fn push_clip_path(&mut self, clip: Path) -> Result<(), SinkFault>
        ensures sends { Sent (means self.old) (Command (PushClipPath clip)) result (means self.new) }
        ensures keeps { KeepsRefused result self.old self.new }
    {
        self.send(AtlasCommand::PushClipPath(clip))
    }

    fn push_clip_rect(&mut self, clip: Rect) -> Result<(), SinkFault>
        ensures sends { Sent (means self.old) (Command (PushClipRect clip)) result (means self.new) }
        ensures keeps { KeepsRefused result self.old self.new }
    {
        self.send(AtlasCommand::PushClipRect(clip))
    }

    fn push_blend_layer(&mut self, blend: BlendMode) -> Result<(), SinkFault>
        ensures sends { Sent (means self.old) (Command (PushBlendLayer blend)) result (means self.new) }
        ensures keeps { KeepsRefused result self.old self.new }
    {
        self.send(AtlasCommand::PushBlendLayer(blend))
    }

    fn pop_layer(&mut self) -> Result<(), SinkFault>
        ensures sends { Sent (means self.old) (Command PopLayer) result (means self.new) }
        ensures keeps { KeepsRefused result self.old self.new }
    {
        self.send(AtlasCommand::PopLayer)
    }

    fn pop_clip_path(&mut self) -> Result<(), SinkFault>
        ensures sends { Sent (means self.old) (Command PopClipPath) result (means self.new) }
        ensures keeps { KeepsRefused result self.old self.new }
    {
        self.send(AtlasCommand::PopClipPath)
    }
}

// A sink that also saves its state, strokes, shows images and answers for slots.
pub trait GlyphRenderer: DrawSink {
    fn save_state(&mut self) -> Result<SavedState, SinkFault>
        ensures saves { Saved (Self.DrawSink.means self.old) result (Self.DrawSink.means self.new) }
        ensures keeps { KeepsRefused result self.old self.new };

    fn restore_state(&mut self, state: SavedState) -> Result<(), RestoreRefused>
        ensures restores { Restored (Self.DrawSink.means self.old) state result (Self.DrawSink.means self.new) }
        ensures keeps { KeepsRefused result self.old self.new };

    fn stroke_path(&mut self, path: Path) -> Result<(), SinkFault>
        ensures sends { Sent (Self.DrawSink.means self.old) (StrokePath path) result (Self.DrawSink.means self.new) }
        ensures keeps { KeepsRefused result self.old self.new };

    fn set_paint_image(&mut self, image: PaintImage) -> Result<(), SinkFault>
        ensures sends { Sent (Self.DrawSink.means self.old) (SetPaintImage (pictured image)) result (Self.DrawSink.means self.new) }
        ensures keeps { KeepsRefused result self.old self.new };

    fn set_tint(&mut self, tint: Option<Color>) -> Result<(), SinkFault>
        ensures sends { Sent (Self.DrawSink.means self.old) (SetTint tint) result (Self.DrawSink.means self.new) }
        ensures keeps { KeepsRefused result self.old self.new };

    fn get_context_color(&self) -> Color
        ensures { result ≡ (Self.DrawSink.means self.now).colour };

    fn atlas_image_source(&self, slot: AtlasSlot) -> ImageSource
        ensures { result ≡ (Self.DrawSink.means self.now).image_at slot };

    fn atlas_paint_transform(&self, slot: AtlasSlot) -> Affine
        ensures { result ≡ (Self.DrawSink.means self.now).place_at slot };
}
