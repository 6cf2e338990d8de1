// Refusals: what a call answers instead of doing its work, each with its number.
ghost use Rattle.std.specs.Prelude.{◌≡◌, ℕ};

use std::fmt;

// Shown in words, with a number. A refusal that is carried on by another layer keeps its number.
pub trait Refusal: fmt::Display {
    ghost numbered: { Self → ℕ };

    fn number(self) -> u8
        ensures { result ≡ numbered self };
}
