// A lent buffer, and how much of it is written.
ghost use Rattle.std.specs.Prelude.{length};
ghost use Rattle.stream_screen.specs.Writes.{Room, Wrote};

#[derive(Drop)]
pub struct Writer<'a> {
    pub(crate) out: &'a mut [u8],
    pub(crate) used: usize,
}

impl Writer<'_> {
    // The bytes of a number are written at once.
    pub(crate) fn put(&mut self, bytes: &[u8])
        requires { Room (length bytes.now) self.old }
        ensures { Wrote bytes.now self.old self.new }
    {
        let end = self.used + bytes.len();
        self.out[self.used..end].copy_from_slice(bytes);
        self.used = end;
    }
}
