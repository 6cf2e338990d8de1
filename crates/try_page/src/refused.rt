// A refusal as it is printed: its number, and why.
use shapes::refusal::Refusal;
use std::fmt;

#[derive(Clone, Copy)]
pub struct Refused<F>(pub F);

impl<F: Refusal + Copy> fmt::Display for Refused<F> {
    fn fmt<W: fmt::Write>(&self, f: &mut fmt::Formatter<W>) -> fmt::Result {
        let fault = self.0;
        write!(f, "refused {}: {fault}", fault.number())
    }
}
