// Numbers as bytes, the lowest first. Every NaN has one pattern.
ghost use Rattle.stream_screen.specs.Stream.{bytes_of, f32_bytes, f64_bytes};

use crate::encode::Encode;
use crate::writer::Writer;
use std::num::{f32_to_bits_with_nan, f64_to_bits_with_nan};

impl Encode for u16 {
    ghost bytes = { bytes_of 2 };

    fn encode(self, writer: &mut Writer) {
        writer.put(&self.to_le_bytes());
    }
}

impl Encode for u32 {
    ghost bytes = { bytes_of 4 };

    fn encode(self, writer: &mut Writer) {
        writer.put(&self.to_le_bytes());
    }
}

impl Encode for f32 {
    ghost bytes = { f32_bytes };

    fn encode(self, writer: &mut Writer) {
        writer.put(&f32_to_bits_with_nan(self).to_le_bytes());
    }
}

impl Encode for f64 {
    ghost bytes = { f64_bytes };

    fn encode(self, writer: &mut Writer) {
        writer.put(&f64_to_bits_with_nan(self).to_le_bytes());
    }
}
