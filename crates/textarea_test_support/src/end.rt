//! The end of a case.
use std::alloc::{AllocError, AllocFailed};
use std::fmt;
use textarea_script_syntax::commands::ReadError;

/// The status if memory ran out outside of a call, so that nothing was judged.
const NOT_JUDGED: u8 = 3;

/// The status if a check failed.
const WRONG: u8 = 4;

/// The end of a case: the number of calls that were made, and why it stopped early, if it did.
#[derive(Clone, Copy)]
pub struct End {
    pub made: usize,
    pub stop: Option<EndReason>,
}

/// Why a case stops early.
#[derive(Clone, Copy)]
pub enum EndReason {
    /// Memory ran out outside of a call.
    Memory,
    /// A call ran out of memory, and left the correct state.
    RanOut,
    /// A check failed.
    Wrong(Difference),
}

/// What differs.
#[derive(Clone, Copy, Debug)]
pub enum Difference {
    /// A line is neither a test command nor a line of a script.
    Script,
    /// A call ran out of memory although there is enough memory.
    Memory,
    Answer,
    Lines,
    Cursor,
    Selection,
    Yank,
    Ranges,
    Viewport,
    Caret,
    Pattern,
    Measure,
    Cells,
    Typing,
    Undo,
    Redo,
    Index,
}

impl End {
    pub fn status(&self) -> u8 {
        match self.stop {
            None | Some(EndReason::RanOut) => 0,
            Some(EndReason::Memory) => NOT_JUDGED,
            Some(EndReason::Wrong(_)) => WRONG,
        }
    }
}

impl fmt::Display for End {
    fn fmt<W: fmt::Write>(&self, f: &mut fmt::Formatter<W>) -> fmt::Result {
        let made = self.made;
        let call = made.saturating_add(1);
        match self.stop {
            None => write!(f, "{made} calls made"),
            Some(EndReason::Memory) => write!(f, "refused beside the calls, behind {made}"),
            Some(EndReason::RanOut) => write!(f, "call {call} refused, as it has to be"),
            Some(EndReason::Wrong(difference)) => write!(f, "call {call} WRONG: {difference:?}"),
        }
    }
}

impl From<AllocError> for EndReason {
    fn from(_error: AllocError) -> EndReason {
        EndReason::Memory
    }
}

impl<T: Drop> From<AllocFailed<T>> for EndReason {
    fn from(_error: AllocFailed<T>) -> EndReason {
        EndReason::Memory
    }
}

impl From<ReadError> for EndReason {
    fn from(error: ReadError) -> EndReason {
        match error {
            ReadError::Memory => EndReason::Memory,
            ReadError::Line(_) => EndReason::Wrong(Difference::Script),
        }
    }
}

/// Returns an error with this difference unless the two compared values are the same.
pub fn same(is_same: bool, difference: Difference) -> Result<(), EndReason> {
    if is_same {
        Ok(())
    } else {
        Err(EndReason::Wrong(difference))
    }
}
