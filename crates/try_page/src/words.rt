// The words of a line, and the values that fields have.
ghost use Rattle.std.specs.Prelude.{◌+◌, ◌<◌, ◌≤◌, OnOk, OnSome};
ghost use Rattle.try_page.specs.Reading.{left_of};

use crate::field::Field;
use crate::line_fault::LineFault;
use glyph_key::key::FontEmbolden;
use shapes::{Affine, Pixmap, Rect};
use std::alloc::Global;
use std::str::{FromStr, SplitAsciiWhitespace};

// The words up to the first that begins with `#`.
#[derive(Drop)]
pub struct Words<'a> {
    rest: SplitAsciiWhitespace<'a>,
}

fn parsed<'a, T: FromStr>(field: Field, word: &'a str) -> Result<T, LineFault<'a>>
where
    T::Err: Drop,
{
    word.parse::<T>()
        .map_err(|_| LineFault::BadValue(field, word))
}

impl<'a> Words<'a> {
    pub fn of(line: &'a str) -> Words<'a> {
        Words {
            rest: line.split_ascii_whitespace(),
        }
    }

    pub fn next_word(&mut self) -> Option<&'a str>
        ensures { OnSome result (left_of self.new < left_of self.old) }
    {
        let word = self.rest.next()?;
        if word.starts_with('#') {
            self.rest = "".split_ascii_whitespace();
            return None;
        }
        Some(word)
    }

    fn value_word(&mut self, field: Field) -> Result<&'a str, LineFault<'a>>
        ensures { OnOk result (left_of self.new < left_of self.old) }
    {
        self.next_word().ok_or(LineFault::NoValue(field))
    }

    pub fn value<T: FromStr>(&mut self, field: Field) -> Result<T, LineFault<'a>>
    where
        T::Err: Drop,
        ensures { OnOk result (left_of self.new < left_of self.old) }
    {
        let word = self.value_word(field)?;
        parsed(field, word)
    }

    // As many numbers as the array holds.
    fn numbers<const N: usize>(&mut self, field: Field) -> Result<[f64; N], LineFault<'a>>
        ensures { OnOk result (left_of self.new + N ≤ left_of self.old) }
    {
        let mut numbers = [0.0; N];
        for number in numbers.iter_mut() {
            *number = self.value(field)?;
        }
        Ok(numbers)
    }

    pub fn rect(&mut self, field: Field) -> Result<Rect, LineFault<'a>>
        ensures { OnOk result (left_of self.new < left_of self.old) }
    {
        let [x0, y0, x1, y1] = self.numbers::<4>(field)?;
        Ok(Rect { x0, y0, x1, y1 })
    }

    pub fn affine(&mut self, field: Field) -> Result<Affine, LineFault<'a>>
        ensures { OnOk result (left_of self.new < left_of self.old) }
    {
        let [a, b, c, d, e, f] = self.numbers::<6>(field)?;
        Ok(Affine { a, b, c, d, e, f })
    }

    // A width and a height.
    pub fn pixmap(&mut self, field: Field) -> Result<Pixmap, LineFault<'a>>
        ensures { OnOk result (left_of self.new < left_of self.old) }
    {
        Ok(Pixmap {
            handle: 0,
            width: self.value(field)?,
            height: self.value(field)?,
        })
    }

    pub fn embolden(&mut self, field: Field) -> Result<FontEmbolden, LineFault<'a>>
        ensures { OnOk result (left_of self.new < left_of self.old) }
    {
        let [amount_x, amount_y] = self.numbers::<2>(field)?;
        let join = self.value(field)?;
        let [miter_limit, tolerance] = self.numbers::<2>(field)?;
        Ok(FontEmbolden {
            amount_x,
            amount_y,
            join,
            miter_limit,
            tolerance,
        })
    }

    // One word: axis values with commas between.
    pub fn axes(&mut self, heap: Global, field: Field) -> Result<Vec<i16>, LineFault<'a>>
        ensures { OnOk result (left_of self.new < left_of self.old) }
    {
        let word = self.value_word(field)?;
        word.split(',')
            .map(|part| parsed::<i16>(field, part))
            .try_collect(heap)
    }
}
