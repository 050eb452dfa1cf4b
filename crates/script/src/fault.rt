// Why a script cannot be run.
ghost use Rattle.std.specs.Prelude.{◌≡◌};
ghost use Rattle.script.specs.declared.fault.Unread.TheVariants.{NoMemory};

use std::alloc::{AllocError, AllocFailed};
use std::fmt;
pub use text::reason::Reason;

// The first faulty line of a script, counted from 1.
#[derive(Clone, Copy, Debug, PartialEq, Eq)]
pub struct Fault {
    pub line: u64,
    pub reason: Reason,
}

impl fmt::Display for Fault {
    fn fmt<W: fmt::Write>(&self, f: &mut fmt::Formatter<W>) -> fmt::Result {
        let Fault { line, reason } = self;
        write!(f, "line {line}: {reason}")
    }
}

// Why a script was not read.
#[derive(Clone, Copy)]
pub enum Unread {
    Faulty(Fault),
    NoMemory,
}

impl From<AllocError> for Unread {
    ghost from_gives = { λ _ r. r ≡ NoMemory };

    fn from(_error: AllocError) -> Unread {
        Unread::NoMemory
    }
}

impl<T: Drop> From<AllocFailed<T>> for Unread {
    ghost from_gives = { λ _ r. r ≡ NoMemory };

    fn from(_error: AllocFailed<T>) -> Unread {
        Unread::NoMemory
    }
}
