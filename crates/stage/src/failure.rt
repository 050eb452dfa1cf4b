// Why the program ends with status 1.
use script::fault::{Fault, Unread};
use std::alloc::AllocError;
use std::{fmt, io};

// Its impls are written out: `thiserror` makes no plain variant of an error, and two errors here are one variant.
#[derive(Drop)]
pub enum Failure {
    Faulty(Fault),
    NoMemory,
    Io(io::Error),
}

impl fmt::Display for Failure {
    fn fmt<W: fmt::Write>(&self, f: &mut fmt::Formatter<W>) -> fmt::Result {
        match self {
            Failure::Faulty(fault) => write!(f, "{fault}"),
            Failure::NoMemory => write!(f, "there is not enough memory"),
            Failure::Io(error) => write!(f, "reading or writing failed: {error}"),
        }
    }
}

impl From<Unread> for Failure {
    fn from(unread: Unread) -> Failure {
        match unread {
            Unread::Faulty(fault) => Failure::Faulty(fault),
            Unread::NoMemory => Failure::NoMemory,
        }
    }
}

impl From<AllocError> for Failure {
    fn from(_error: AllocError) -> Failure {
        Failure::NoMemory
    }
}

impl From<io::Error> for Failure {
    fn from(error: io::Error) -> Failure {
        Failure::Io(error)
    }
}
