// A screen that writes its calls as bytes into a lent buffer.
#![tactic(auto)]

pub mod call_bytes;
mod encode;
mod numbers;
mod records;
pub mod screen;
mod values;
pub mod worked;
mod writer;
