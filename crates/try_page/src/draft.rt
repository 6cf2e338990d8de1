// The fields of a letter as far as its line has been read.
ghost use Rattle.std.specs.Prelude.{◌≡◌, ◌≤◌, not, is_some, is_ok, IfOk, Some, OnOk};
ghost use Rattle.std.specs.Float.{float_zero};
ghost use Rattle.std.specs.Option.{unwrap_or};
ghost use Rattle.try_page.specs.Reading.{left_of, PartsFrom, OutlineFrom, BitmapFrom, PictureFrom, usual_transform, axes_from};

use crate::field::{Field, Kind};
use crate::line_fault::LineFault;
use crate::words::Words;
use glyph_key::key::{FontEmbolden, Join, KeyParts};
use raster::glyph::{Glyph, GlyphBitmap, GlyphOutline};
use shapes::{Affine, Path, Pixmap, Rect};
use std::alloc::Global;

#[derive(Default, Drop)]
pub struct Draft {
    font: Option<u64>,
    index: Option<u32>,
    glyph: Option<u32>,
    size: Option<f32>,
    at: Option<f32>,
    hinted: Option<bool>,
    color: Option<u32>,
    embolden: Option<FontEmbolden>,
    axes: Option<Vec<i16>>,
    path: Option<u32>,
    bounds: Option<Rect>,
    scale: Option<f64>,
    pixmap: Option<Pixmap>,
    area: Option<Rect>,
    transform: Option<Affine>,
}

// What a letter has whose line has no `embolden`.
const NO_EMBOLDEN: FontEmbolden = FontEmbolden {
    amount_x: 0.0,
    amount_y: 0.0,
    join: Join::Miter,
    miter_limit: 4.0,
    tolerance: 0.1,
};

// The usual transform of a bitmap.
const UPRIGHT: Affine = Affine {
    a: 1.0,
    b: 0.0,
    c: 0.0,
    d: 1.0,
    e: 0.0,
    f: 0.0,
};

// The usual transform of an outline, which has y upward.
const TURNED_OVER: Affine = Affine { d: -1.0, ..UPRIGHT };

fn usual_transform(kind: Kind) -> Affine
    ensures { result ≡ usual_transform kind }
{
    match kind {
        Kind::Outline => TURNED_OVER,
        Kind::Bitmap => UPRIGHT,
    }
}

fn fill<'a, T: Drop>(place: &mut Option<T>, field: Field, value: T) -> Result<(), LineFault<'a>>
    ensures after { place.new ≡ Some value }
    ensures once { is_ok result ≡ not (is_some place.old) }
{
    match place.replace(value) {
        None => Ok(()),
        Some(_) => Err(LineFault::Repeated(field)),
    }
}

impl Draft {
    pub fn read<'a>(
        heap: Global,
        kind: Kind,
        words: &mut Words<'a>,
    ) -> Result<Draft, LineFault<'a>> {
        let mut draft = Draft::default();
        while let Some(word) = words.next_word() {
            let field = word
                .parse::<Field>()
                .map_err(|_| LineFault::UnknownField(word))?;
            if !field.is_for(kind) {
                return Err(LineFault::OtherKind(field, kind));
            }
            draft.take(heap, field, words)?;
        }
        Ok(draft)
    }

    // Reads the values of one field.
    fn take<'a>(
        &mut self,
        heap: Global,
        field: Field,
        words: &mut Words<'a>,
    ) -> Result<(), LineFault<'a>>
        ensures { OnOk result (left_of words.new ≤ left_of words.old) }
    {
        match field {
            Field::Font => fill(&mut self.font, field, words.value(field)?),
            Field::Index => fill(&mut self.index, field, words.value(field)?),
            Field::Glyph => fill(&mut self.glyph, field, words.value(field)?),
            Field::Size => fill(&mut self.size, field, words.value(field)?),
            Field::At => fill(&mut self.at, field, words.value(field)?),
            Field::Hinted => fill(&mut self.hinted, field, true),
            Field::Color => fill(&mut self.color, field, words.value(field)?),
            Field::Embolden => fill(&mut self.embolden, field, words.embolden(field)?),
            Field::Axes => fill(&mut self.axes, field, words.axes(heap, field)?),
            Field::Path => fill(&mut self.path, field, words.value(field)?),
            Field::Bounds => fill(&mut self.bounds, field, words.rect(field)?),
            Field::Scale => fill(&mut self.scale, field, words.value(field)?),
            Field::Pixmap => fill(&mut self.pixmap, field, words.pixmap(field)?),
            Field::Area => fill(&mut self.area, field, words.rect(field)?),
            Field::Transform => fill(&mut self.transform, field, words.affine(field)?),
        }
    }

    pub fn parts<'a>(&self) -> Result<KeyParts, LineFault<'a>>
        ensures { IfOk result (λ p. PartsFrom self.now p) }
    {
        let font_id = self.font.ok_or(LineFault::Missing(Field::Font))?;
        let glyph_id = self.glyph.ok_or(LineFault::Missing(Field::Glyph))?;
        let size = self.size.ok_or(LineFault::Missing(Field::Size))?;
        Ok(KeyParts {
            font_id,
            font_index: self.index.unwrap_or(0),
            glyph_id,
            size,
            hinted: self.hinted.unwrap_or(false),
            context_color_packed: self.color.unwrap_or(0),
            embolden: self.embolden.unwrap_or(NO_EMBOLDEN),
        })
    }

    fn outline<'a>(&self) -> Result<GlyphOutline, LineFault<'a>>
        ensures { IfOk result (λ o. OutlineFrom self.now o) }
    {
        let bounds = self.bounds.ok_or(LineFault::Missing(Field::Bounds))?;
        Ok(GlyphOutline {
            path: Path {
                handle: self.path.unwrap_or(0),
                bounds,
            },
            scale: self.scale.unwrap_or(1.0),
        })
    }

    // Unless the line says otherwise, a bitmap goes where its pixels are.
    fn bitmap<'a>(&self) -> Result<GlyphBitmap, LineFault<'a>>
        ensures { IfOk result (λ b. BitmapFrom self.now b) }
    {
        let pixmap = self.pixmap.ok_or(LineFault::Missing(Field::Pixmap))?;
        let whole = Rect {
            x0: 0.0,
            y0: 0.0,
            x1: f64::from(pixmap.width),
            y1: f64::from(pixmap.height),
        };
        Ok(GlyphBitmap {
            pixmap,
            area: self.area.unwrap_or(whole),
        })
    }

    pub fn picture<'a>(&self, kind: Kind) -> Result<Glyph, LineFault<'a>>
        ensures { IfOk result (λ g. PictureFrom self.now kind g) }
    {
        match kind {
            Kind::Outline => Ok(Glyph::Outline(self.outline()?)),
            Kind::Bitmap => Ok(Glyph::Bitmap(self.bitmap()?)),
        }
    }

    pub fn transform(&self, kind: Kind) -> Affine
        ensures { result ≡ unwrap_or self.now.transform (usual_transform kind) }
    {
        self.transform.unwrap_or(usual_transform(kind))
    }

    pub fn fraction(&self) -> f32
        ensures { result ≡ unwrap_or self.now.at float_zero }
    {
        self.at.unwrap_or(0.0)
    }

    pub fn into_axes(self, heap: Global) -> Vec<i16>
        ensures { result.items ≡ axes_from self }
    {
        self.axes.unwrap_or_else(|| Vec::new(heap))
    }
}
