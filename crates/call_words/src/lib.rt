// Calls in words, one line each: the call's name, and what it carries. Whole numbers are decimal; floats are their bit patterns in hexadecimal, 16 or 8 digits, every NaN by
// one pattern.
#![tactic(auto)]

mod call;
mod numbers;
#[cfg(test)]
mod tests;
mod values;

// A call, a command or a value that one carries, to be shown in words.
#[derive(Clone, Copy)]
pub struct Words<T>(pub T);
