// What a whole page asks of the atlas.
ghost use Rattle.std.specs.Prelude.{◌≡◌, OnOk};
ghost use Rattle.try_page.specs.Once.{known};
ghost use Rattle.try_page.specs.Tally.{slot_pixels, refused_more, Added, Blank, Unread};

use crate::key_set::KeySet;
use crate::picture::PADDING;
use crate::verdict::{LetterFault, Verdict};
use glyph_key::fault::KeyFault;
use glyph_key::key::GlyphCacheKey;
use raster::fault::RasterFault;
use raster::glyph::RasterMetrics;
use shapes::refusal::Refusal;
use std::alloc::{AllocError, Global};
use std::fmt;

// How many letters were refused, by reason.
#[derive(Clone, Copy, Default)]
pub struct Refusals {
    not_finite: u64,
    too_many_axes: u64,
    not_a_number: u64,
    no_metrics: u64,
}

// `keys` has the keys of the letters that are not refused, and `pictures` those of the letters that are drawn from the atlas.
#[derive(Drop)]
pub struct Summary {
    letters: u64,
    plain: u64,
    pixels: u64,
    unread: u64,
    refusals: Refusals,
    keys: KeySet,
    pictures: KeySet,
}

fn slot_pixels(metrics: RasterMetrics) -> u64
    ensures { result ≡ slot_pixels metrics }
{
    let padding = u64::from(PADDING);
    (u64::from(metrics.width) + padding) * (u64::from(metrics.height) + padding)
}

impl Refusals {
    fn add(&mut self, fault: LetterFault)
        ensures { self.new ≡ refused_more self.old fault }
    {
        match fault {
            LetterFault::NotFinite => self.not_finite = self.not_finite.saturating_add(1),
            LetterFault::Key(KeyFault::TooManyAxes) => {
                self.too_many_axes = self.too_many_axes.saturating_add(1);
            }
            LetterFault::Key(KeyFault::NotANumber) => {
                self.not_a_number = self.not_a_number.saturating_add(1);
            }
            LetterFault::Raster(_) => self.no_metrics = self.no_metrics.saturating_add(1),
        }
    }

    // Each reason and its count, in the order in which they are printed.
    fn by_reason(self) -> [(LetterFault, u64); 4] {
        [
            (LetterFault::NotFinite, self.not_finite),
            (LetterFault::Key(KeyFault::TooManyAxes), self.too_many_axes),
            (LetterFault::Key(KeyFault::NotANumber), self.not_a_number),
            (LetterFault::Raster(RasterFault::Metrics), self.no_metrics),
        ]
    }
}

impl Summary {
    pub fn new(heap: Global) -> Summary
        ensures { Blank result }
    {
        Summary {
            letters: 0,
            plain: 0,
            pixels: 0,
            unread: 0,
            refusals: Refusals::default(),
            keys: KeySet::new(heap),
            pictures: KeySet::new(heap),
        }
    }

    // Whether a letter with that key is drawn from the atlas already.
    pub fn has_picture(&self, key: &GlyphCacheKey) -> bool
        ensures { result ≡ known self.now.pictures.items key.now }
    {
        self.pictures.has(key)
    }

    pub fn add(&mut self, verdict: Result<Verdict, LetterFault>) -> Result<(), AllocError>
        ensures { OnOk result (Added self.old verdict self.new) }
    {
        self.letters = self.letters.saturating_add(1);
        match verdict {
            Ok(Verdict::Atlas(key, metrics)) => {
                self.keys.add(key)?;
                if self.pictures.add(key)? {
                    self.pixels = self.pixels.saturating_add(slot_pixels(metrics));
                }
            }
            Ok(Verdict::Plain(key)) => {
                self.plain = self.plain.saturating_add(1);
                self.keys.add(key)?;
            }
            Err(fault) => self.refusals.add(fault),
        }
        Ok(())
    }

    pub fn add_unread(&mut self)
        ensures { Unread self.old self.new }
    {
        self.unread = self.unread.saturating_add(1);
    }
}

impl fmt::Display for Summary {
    fn fmt<W: fmt::Write>(&self, f: &mut fmt::Formatter<W>) -> fmt::Result {
        writeln!(f, "letters: {}", self.letters)?;
        writeln!(f, "distinct keys: {}", self.keys.len())?;
        writeln!(f, "plain letters: {}", self.plain)?;
        writeln!(f, "pixels wanted: {}", self.pixels)?;
        for (fault, count) in self.refusals.by_reason() {
            if count > 0 {
                writeln!(f, "refused {}: {count}", fault.number())?;
            }
        }
        write!(f, "lines not read: {}", self.unread)
    }
}
