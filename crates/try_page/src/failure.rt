// Why a page was not gone through to its end.
use std::alloc::{AllocError, AllocFailed};
use std::{fmt, io};

#[derive(Drop)]
pub enum Failure {
    Arguments(io::Error),
    Open(String, io::Error),
    Stopped(io::Error),
    Cache,
}

impl From<io::Error> for Failure {
    fn from(error: io::Error) -> Failure {
        Failure::Stopped(error)
    }
}

impl From<AllocError> for Failure {
    fn from(error: AllocError) -> Failure {
        Failure::Stopped(io::Error::from(error))
    }
}

impl<T: Drop> From<AllocFailed<T>> for Failure {
    fn from(error: AllocFailed<T>) -> Failure {
        Failure::from(AllocError::from(error))
    }
}

impl fmt::Display for Failure {
    fn fmt<W: fmt::Write>(&self, f: &mut fmt::Formatter<W>) -> fmt::Result {
        match self {
            Failure::Arguments(error) => write!(f, "cannot read its arguments: {error}"),
            Failure::Open(path, error) => write!(f, "cannot open {path}: {error}"),
            Failure::Cache => f.write_str(
                "a cache is `shelf WIDTH HEIGHT PAGES` or `grid SIDE PAGES`",
            ),
            Failure::Stopped(error) => write!(f, "stopped before the end of the page: {error}"),
        }
    }
}
