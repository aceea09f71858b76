//! Why a case has no answer.

use hex::FromHexError;
use ov_io::WriteRefusal;
use ov_types::NoMemory;
use std::alloc::{AllocError, AllocFailed};
use std::fmt;

#[derive(Clone, Copy)]
pub enum CaseFault {
    /// The case is not spelled as its kind wants it.
    Unreadable,
    NoMemory,
}

impl fmt::Display for CaseFault {
    fn fmt<W: fmt::Write>(&self, f: &mut fmt::Formatter<W>) -> fmt::Result {
        match self {
            CaseFault::Unreadable => f.write_str("the case can't be read"),
            CaseFault::NoMemory => f.write_str("no memory"),
        }
    }
}

impl From<NoMemory> for CaseFault {
    fn from(_e: NoMemory) -> CaseFault {
        CaseFault::NoMemory
    }
}

impl From<AllocError> for CaseFault {
    fn from(_e: AllocError) -> CaseFault {
        CaseFault::NoMemory
    }
}

impl<T: Drop> From<AllocFailed<T>> for CaseFault {
    fn from(_e: AllocFailed<T>) -> CaseFault {
        CaseFault::NoMemory
    }
}

impl From<FromHexError> for CaseFault {
    fn from(_e: FromHexError) -> CaseFault {
        CaseFault::Unreadable
    }
}

/// A sink over memory fails only where there is none.
impl From<WriteRefusal> for CaseFault {
    fn from(_e: WriteRefusal) -> CaseFault {
        CaseFault::NoMemory
    }
}

/// What telling came to.
pub fn told(answer: Result<(), NoMemory>) -> Result<(), CaseFault> {
    match answer {
        Ok(()) => Ok(()),
        Err(_) => Err(CaseFault::NoMemory),
    }
}
