// The reply to a line: comments and blank lines come back as they are.
use crate::answers::{Answer, answer_to};
use crate::vectors::Vector;
use std::fmt;

#[derive(Clone, Copy)]
pub enum Reply<'a> {
    Echo(&'a str),
    Answered(Answer),
    Unreadable(u64),
}

fn is_vector(line: &str) -> bool {
    !line.trim().is_empty() && !line.starts_with('#')
}

pub fn reply_to(number: u64, line: &str) -> Reply<'_> {
    if !is_vector(line) {
        return Reply::Echo(line);
    }
    match line.parse::<Vector>() {
        Ok(vector) => Reply::Answered(answer_to(vector)),
        Err(_) => Reply::Unreadable(number),
    }
}

impl fmt::Display for Reply<'_> {
    fn fmt<W: fmt::Write>(&self, f: &mut fmt::Formatter<W>) -> fmt::Result {
        match self {
            Reply::Echo(line) => f.write_str(line),
            Reply::Answered(answer) => write!(f, "{answer}"),
            Reply::Unreadable(number) => write!(f, "line {number}: cannot be read"),
        }
    }
}
