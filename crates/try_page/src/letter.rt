// A letter of a page.
ghost use Rattle.std.specs.Prelude.{◌≡◌};
ghost use Rattle.try_page.specs.Reading.{kind_of};

use crate::draft::Draft;
use crate::field::Kind;
use crate::line_fault::LineFault;
use crate::words::Words;
use glyph_key::key::KeyParts;
use raster::glyph::Glyph;
use shapes::Affine;
use std::alloc::Global;
use std::str::from_utf8;

// `fraction` is the fraction of a pixel at which an outline stands.
#[derive(Drop)]
pub struct Letter<'a> {
    pub name: &'a str,
    pub parts: KeyParts,
    pub fraction: f32,
    pub axes: Vec<i16>,
    pub glyph: Glyph,
    pub transform: Affine,
}

impl<'a> Letter<'a> {
    // A line with no words but a comment has no letter.
    pub fn read(heap: Global, line: &'a [u8]) -> Result<Option<Letter<'a>>, LineFault<'a>> {
        let mut words = Words::of(from_utf8(line)?);
        let Some(word) = words.next_word() else {
            return Ok(None);
        };
        let kind = word
            .parse::<Kind>()
            .map_err(|_| LineFault::UnknownKind(word))?;
        let name = words.next_word().ok_or(LineFault::NoName)?;
        let draft = Draft::read(heap, kind, &mut words)?;
        Ok(Some(Letter {
            name,
            parts: draft.parts()?,
            fraction: draft.fraction(),
            glyph: draft.picture(kind)?,
            transform: draft.transform(kind),
            axes: draft.into_axes(heap),
        }))
    }

    pub fn kind(&self) -> Kind
        ensures { result ≡ kind_of self.now.glyph }
    {
        match self.glyph {
            Glyph::Outline(_) => Kind::Outline,
            Glyph::Bitmap(_) => Kind::Bitmap,
        }
    }
}
