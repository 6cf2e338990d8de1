// A test that a record passes or not. A list keeps the records that pass one, whatever they are.
ghost use Rattle.std.specs.Prelude.{◌≡◌, Bool};

pub trait Test<T> {
    ghost accepts: { Self → T → Bool };

    fn passes(&self, item: &T) -> bool
        ensures { result ≡ accepts self.now item.now };
}
