// A glyph onto a screen from its picture on a page of the atlas.
ghost use Rattle.std.specs.Prelude.{◌≤◌};
ghost use Rattle.shapes.specs.Answers.{KeepsRefused};
ghost use Rattle.drawing.specs.Shown.{Shown, from_atlas};
ghost use Rattle.drawing.specs.Between.{Steps, picture_calls};

use crate::enclosed::{check_room, enclosed};
use interface::fault::SinkFault;
use interface::region::AtlasSlot;
use interface::sink::GlyphRenderer;
use interface::values::{ImageQuality, PaintImage};
use shapes::{Affine, Color, Rect};

// A slot over the area, as the transform has it. A tint is a colour that the picture masks.
#[derive(Clone, Copy)]
pub struct FromAtlas {
    pub slot: AtlasSlot,
    pub transform: Affine,
    pub area: Rect,
    pub quality: ImageQuality,
    pub tint: Option<Color>,
}

impl FromAtlas {
    // The tint is taken back at the end: a saved state need not hold it.
    fn send_picture<S: GlyphRenderer>(self, screen: &mut S, picture: PaintImage, place: Affine)
        requires { 6 ≤ (S.DrawSink.means screen.old).free }
        ensures { Steps (S.DrawSink.means screen.old) (picture_calls picture place self.transform self.area self.tint) (S.DrawSink.means screen.new) }
    {
        screen.set_tint(self.tint).unwrap();
        screen.set_transform(self.transform).unwrap();
        screen.set_paint_image(picture).unwrap();
        screen.set_paint_transform(place).unwrap();
        screen.fill_rect(self.area).unwrap();
        screen.set_tint(None).unwrap();
    }

    // Shows the slot; refused where fewer than eight places are free, and then nothing is asked or sent. The screen is asked about the slot
    // before its state is saved.
    pub fn show<S: GlyphRenderer>(self, screen: &mut S) -> Result<(), SinkFault>
        ensures shows { Shown (S.DrawSink.means screen.old) (from_atlas (S.DrawSink.means screen.old) self.slot self.transform self.area self.quality self.tint) result (S.DrawSink.means screen.new) }
        ensures keeps { KeepsRefused result screen.old screen.new }
    {
        check_room(screen)?;
        let picture = PaintImage {
            source: screen.atlas_image_source(self.slot),
            quality: self.quality,
        };
        let place = screen.atlas_paint_transform(self.slot);
        enclosed(screen, |screen| self.send_picture(screen, picture, place));
        Ok(())
    }
}
