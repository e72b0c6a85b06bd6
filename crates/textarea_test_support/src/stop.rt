//! Why a case fails.
use std::alloc::{AllocError, AllocFailed};
use std::fmt;
use textarea_script_syntax::commands::ReadError;

/// The status if memory ran out.
const NO_MEMORY: u8 = 3;

/// The status if a case fails or can't be read.
const WRONG: u8 = 4;

/// Why a case fails or stops.
#[derive(Drop)]
pub enum Stop {
    /// Memory ran out.
    Memory,
    /// The case can't be read.
    Unparsed,
    /// The result differs from the expected one.
    Differs { found: String, wanted: String },
}

impl Stop {
    pub fn status(&self) -> u8 {
        match self {
            Stop::Memory => NO_MEMORY,
            Stop::Unparsed | Stop::Differs { .. } => WRONG,
        }
    }
}

impl fmt::Display for Stop {
    fn fmt<W: fmt::Write>(&self, f: &mut fmt::Formatter<W>) -> fmt::Result {
        match self {
            Stop::Memory => write!(f, "no memory"),
            Stop::Unparsed => write!(f, "not read"),
            Stop::Differs { found, wanted } => write!(f, "found:\n{found}\nwanted:\n{wanted}"),
        }
    }
}

impl From<AllocError> for Stop {
    fn from(_error: AllocError) -> Stop {
        Stop::Memory
    }
}

impl<T: Drop> From<AllocFailed<T>> for Stop {
    fn from(_error: AllocFailed<T>) -> Stop {
        Stop::Memory
    }
}

impl From<ReadError> for Stop {
    fn from(error: ReadError) -> Stop {
        match error {
            ReadError::Memory => Stop::Memory,
            ReadError::Line(_) => Stop::Unparsed,
        }
    }
}

/// Returns an error unless the found text is the expected one.
pub fn compare(found: String, wanted: &str) -> Result<(), Stop> {
    if found.as_str() == wanted {
        return Ok(());
    }
    let wanted = String::from_str(*found.allocator(), wanted)?;
    Err(Stop::Differs { found, wanted })
}
