use std::alloc::AllocError;
use thiserror::Error;

/// Why a pattern was not set.
#[derive(Debug, Drop, Error)]
pub enum SearchError {
    /// Out of memory for the pattern.
    #[error(transparent)]
    Memory(AllocError),
    /// The error that `regex` returned for the pattern, unchanged. It may also mean out of memory.
    #[error(transparent)]
    Pattern(regex::Error),
}
