// Why a line cannot be read as a letter, with the field or the word at fault.
use crate::field::{Field, Kind};
use std::alloc::AllocError;
use std::fmt;
use std::str::Utf8Error;

#[derive(Clone, Copy)]
pub enum LineFault<'a> {
    NotText,
    NoMemory,
    UnknownKind(&'a str),
    NoName,
    UnknownField(&'a str),
    OtherKind(Field, Kind),
    Repeated(Field),
    NoValue(Field),
    BadValue(Field, &'a str),
    Missing(Field),
}

impl From<Utf8Error> for LineFault<'_> {
    fn from(_e: Utf8Error) -> Self {
        LineFault::NotText
    }
}

impl From<AllocError> for LineFault<'_> {
    fn from(_e: AllocError) -> Self {
        LineFault::NoMemory
    }
}

impl fmt::Display for LineFault<'_> {
    fn fmt<W: fmt::Write>(&self, f: &mut fmt::Formatter<W>) -> fmt::Result {
        match *self {
            LineFault::NotText => f.write_str("it is not UTF-8 text"),
            LineFault::NoMemory => f.write_str("there is no memory left for it"),
            LineFault::UnknownKind(word) => {
                write!(f, "it begins with `{word}`, and not with outline or bitmap")
            }
            LineFault::NoName => f.write_str("the letter has no name"),
            LineFault::UnknownField(word) => write!(f, "field `{word}` is not known"),
            LineFault::OtherKind(field, kind) => {
                write!(f, "field `{field}` is not for a letter of kind {kind}")
            }
            LineFault::Repeated(field) => write!(f, "field `{field}` is given twice"),
            LineFault::NoValue(field) => write!(f, "field `{field}` has too few values"),
            LineFault::BadValue(field, word) => {
                write!(f, "field `{field}` cannot have the value `{word}`")
            }
            LineFault::Missing(field) => write!(f, "field `{field}` is missing"),
        }
    }
}
