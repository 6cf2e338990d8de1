// The line that is printed for a letter.
use crate::letter::Letter;
use crate::refused::Refused;
use crate::verdict::{LetterFault, Verdict};
use glyph_key::key::{GlyphCacheKey, KeyBits};
use raster::glyph::RasterMetrics;
use std::fmt;

#[derive(Clone, Copy)]
pub struct Report<'a> {
    pub line: u64,
    pub letter: &'a Letter<'a>,
    pub verdict: Result<Verdict, LetterFault>,
}

// What of a key a page's author can set right: the numbers as f32 bit patterns.
#[derive(Clone, Copy)]
struct KeyWords(GlyphCacheKey);

impl fmt::Display for KeyWords {
    fn fmt<W: fmt::Write>(&self, f: &mut fmt::Formatter<W>) -> fmt::Result {
        let KeyBits {
            size,
            embolden_x,
            embolden_y,
            miter_limit,
            tolerance,
        } = self.0.bits();
        write!(
            f,
            "bucket {}, size {size:08X}, embolden {embolden_x:08X} {embolden_y:08X} {} {miter_limit:08X} tolerance {tolerance:08X}",
            self.0.bucket(),
            self.0.join()
        )
    }
}

impl fmt::Display for Report<'_> {
    fn fmt<W: fmt::Write>(&self, f: &mut fmt::Formatter<W>) -> fmt::Result {
        let letter = self.letter;
        write!(f, "line {}: {} {}: ", self.line, letter.kind(), letter.name)?;
        match self.verdict {
            Ok(Verdict::Atlas(key, metrics)) => {
                let RasterMetrics {
                    width,
                    height,
                    left,
                    top,
                } = metrics;
                write!(f, "{}; atlas; ", KeyWords(key))?;
                write!(f, "slot {width} x {height}, bearings {left} {top}")
            }
            Ok(Verdict::Plain(key)) => {
                write!(f, "{}; plain: ", KeyWords(key))?;
                f.write_str("its transform is skewed, scaled or mirrored")
            }
            Err(fault) => write!(f, "{}", Refused(fault)),
        }
    }
}
