// The two kinds of letter, and the fields that a line gives one.
use std::fmt;
use std::str::FromStr;

#[derive(Clone, Copy, PartialEq, Eq)]
pub enum Kind {
    Outline,
    Bitmap,
}

#[derive(Clone, Copy, PartialEq, Eq)]
pub enum Field {
    Font,
    Index,
    Glyph,
    Size,
    At,
    Hinted,
    Color,
    Embolden,
    Axes,
    Path,
    Bounds,
    Scale,
    Pixmap,
    Area,
    Transform,
}

// A word that names none of them.
#[derive(Clone, Copy)]
pub struct UnknownName;

impl FromStr for Kind {
    type Err = UnknownName;

    fn from_str(word: &str) -> Result<Kind, UnknownName> {
        match word {
            "outline" => Ok(Kind::Outline),
            "bitmap" => Ok(Kind::Bitmap),
            _ => Err(UnknownName),
        }
    }
}

impl fmt::Display for Kind {
    fn fmt<W: fmt::Write>(&self, f: &mut fmt::Formatter<W>) -> fmt::Result {
        f.write_str(match self {
            Kind::Outline => "outline",
            Kind::Bitmap => "bitmap",
        })
    }
}

impl Field {
    const ALL: [Field; 15] = [
        Field::Font,
        Field::Index,
        Field::Glyph,
        Field::Size,
        Field::At,
        Field::Hinted,
        Field::Color,
        Field::Embolden,
        Field::Axes,
        Field::Path,
        Field::Bounds,
        Field::Scale,
        Field::Pixmap,
        Field::Area,
        Field::Transform,
    ];

    fn name(self) -> &'static str {
        match self {
            Field::Font => "font",
            Field::Index => "index",
            Field::Glyph => "glyph",
            Field::Size => "size",
            Field::At => "at",
            Field::Hinted => "hinted",
            Field::Color => "color",
            Field::Embolden => "embolden",
            Field::Axes => "axes",
            Field::Path => "path",
            Field::Bounds => "box",
            Field::Scale => "scale",
            Field::Pixmap => "pixmap",
            Field::Area => "area",
            Field::Transform => "transform",
        }
    }

    // Whether a letter of this kind may have the field.
    pub fn is_for(self, kind: Kind) -> bool {
        match self {
            Field::At | Field::Path | Field::Bounds | Field::Scale => kind == Kind::Outline,
            Field::Pixmap | Field::Area => kind == Kind::Bitmap,
            _ => true,
        }
    }
}

impl FromStr for Field {
    type Err = UnknownName;

    fn from_str(word: &str) -> Result<Field, UnknownName> {
        let found = Field::ALL.iter().find(|field| field.name() == word);
        found.copied().ok_or(UnknownName)
    }
}

impl fmt::Display for Field {
    fn fmt<W: fmt::Write>(&self, f: &mut fmt::Formatter<W>) -> fmt::Result {
        f.write_str(self.name())
    }
}
