// Floats in words.
use crate::Words;
use std::fmt;
use std::num::{f32_to_bits_with_nan, f64_to_bits_with_nan};

impl fmt::Display for Words<f32> {
    fn fmt<W: fmt::Write>(&self, f: &mut fmt::Formatter<W>) -> fmt::Result {
        write!(f, "{:08X}", f32_to_bits_with_nan(self.0))
    }
}

impl fmt::Display for Words<f64> {
    fn fmt<W: fmt::Write>(&self, f: &mut fmt::Formatter<W>) -> fmt::Result {
        write!(f, "{:016X}", f64_to_bits_with_nan(self.0))
    }
}
