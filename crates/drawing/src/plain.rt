// A glyph onto a screen without a picture on a page.
ghost use Rattle.std.specs.Prelude.{◌≡◌, ◌≤◌, [], ◌∷◌};
ghost use Rattle.shapes.specs.Answers.{KeepsRefused};
ghost use Rattle.drawing.specs.Shown.{Shown, show_plain, scaled, path_call};
ghost use Rattle.drawing.specs.Between.{Steps, outline_calls, bitmap_calls, plain_calls};

use crate::enclosed::{check_room, enclosed};
use crate::style::Style;
use interface::fault::SinkFault;
use interface::sink::GlyphRenderer;
use interface::values::{ImageQuality, ImageSource, PaintImage};
use raster::glyph::{Glyph, GlyphBitmap, GlyphOutline};
use shapes::Affine;

// The transform of what is `scale` times as large.
fn scaled(transform: Affine, scale: f64) -> Affine
    ensures { result ≡ scaled transform scale }
{
    Affine {
        a: transform.a * scale,
        b: transform.b * scale,
        c: transform.c * scale,
        d: transform.d * scale,
        ..transform
    }
}

// A glyph drawn from its own outline or pixmap. A bitmap is shown alike whatever the style.
#[derive(Clone, Copy)]
pub struct Plain {
    pub glyph: Glyph,
    pub style: Style,
    pub transform: Affine,
    pub paint_transform: Affine,
}

impl Plain {
    fn send_path<S: GlyphRenderer>(self, screen: &mut S, outline: GlyphOutline)
        requires { 1 ≤ (S.DrawSink.means screen.old).free }
        ensures { Steps (S.DrawSink.means screen.old) (path_call outline self.style ∷ []) (S.DrawSink.means screen.new) }
    {
        match self.style {
            Style::Fill => screen.fill_path(outline.path).unwrap(),
            Style::Stroke => screen.stroke_path(outline.path).unwrap(),
        }
    }

    fn send_outline<S: GlyphRenderer>(self, screen: &mut S, outline: GlyphOutline)
        requires { 3 ≤ (S.DrawSink.means screen.old).free }
        ensures { Steps (S.DrawSink.means screen.old) (outline_calls outline self.style self.transform self.paint_transform) (S.DrawSink.means screen.new) }
    {
        let in_pixels = scaled(self.transform, outline.scale);
        screen.set_transform(in_pixels).unwrap();
        screen.set_paint_transform(self.paint_transform).unwrap();
        self.send_path(screen, outline);
    }

    fn send_bitmap<S: GlyphRenderer>(self, screen: &mut S, bitmap: GlyphBitmap)
        requires { 3 ≤ (S.DrawSink.means screen.old).free }
        ensures { Steps (S.DrawSink.means screen.old) (bitmap_calls bitmap self.transform) (S.DrawSink.means screen.new) }
    {
        let picture = PaintImage {
            source: ImageSource::OfPixmap(bitmap.pixmap),
            quality: ImageQuality::Medium,
        };
        screen.set_transform(self.transform).unwrap();
        screen.set_paint_image(picture).unwrap();
        screen.fill_rect(bitmap.area).unwrap();
    }

    fn send_glyph<S: GlyphRenderer>(self, screen: &mut S)
        requires { 3 ≤ (S.DrawSink.means screen.old).free }
        ensures { Steps (S.DrawSink.means screen.old) (plain_calls self.glyph self.style self.transform self.paint_transform) (S.DrawSink.means screen.new) }
    {
        match self.glyph {
            Glyph::Outline(outline) => self.send_outline(screen, outline),
            Glyph::Bitmap(bitmap) => self.send_bitmap(screen, bitmap),
        }
    }

    // Shows the glyph; refused where fewer than eight places are free, and then nothing is sent.
    pub fn show<S: GlyphRenderer>(self, screen: &mut S) -> Result<(), SinkFault>
        ensures shows { Shown (S.DrawSink.means screen.old) (show_plain self.glyph self.style self.transform self.paint_transform) result (S.DrawSink.means screen.new) }
        ensures keeps { KeepsRefused result screen.old screen.new }
    {
        check_room(screen)?;
        enclosed(screen, |screen| self.send_glyph(screen));
        Ok(())
    }
}
