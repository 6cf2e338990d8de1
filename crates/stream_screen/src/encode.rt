// Values as bytes, written after what a writer has written.
ghost use Rattle.std.specs.Prelude.{ℕ, List, [], ◌∷◌, ◌++◌, flat_map, length};
ghost use Rattle.stream_screen.specs.Writes.{Room, Wrote};

use crate::writer::Writer;

pub(crate) trait Encode: Copy {
    // What the value is as bytes.
    ghost bytes: { Self → List ℕ };

    fn encode(self, writer: &mut Writer)
        requires { Room (length (bytes self)) writer.old }
        ensures { Wrote (bytes self) writer.old writer.new };
}

impl Encode for u8 {
    ghost bytes = { λ n. n ∷ [] };

    fn encode(self, writer: &mut Writer) {
        writer.out[writer.used] = self;
        writer.used += 1;
    }
}

// Several values: one after the other.
impl<T: Encode, const N: usize> Encode for [T; N] {
    ghost bytes = { flat_map T.bytes };

    fn encode(self, writer: &mut Writer) {
        for x in self {
            x.encode(writer);
        }
    }
}

impl<A: Encode, B: Encode> Encode for (A, B) {
    ghost bytes = { λ p. A.bytes p.0 ++ B.bytes p.1 };

    fn encode(self, writer: &mut Writer) {
        self.0.encode(writer);
        self.1.encode(writer);
    }
}

impl<A: Encode, B: Encode, C: Encode> Encode for (A, B, C) {
    ghost bytes = { λ p. A.bytes p.0 ++ B.bytes p.1 ++ C.bytes p.2 };

    fn encode(self, writer: &mut Writer) {
        self.0.encode(writer);
        self.1.encode(writer);
        self.2.encode(writer);
    }
}
