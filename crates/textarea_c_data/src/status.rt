//! What exports return.
ghost use Rattle.std.specs.Prelude.{◌≡◌, OnOk, OnErr, IfOk, if◌then◌else◌};

use std::alloc::AllocError;

/// The call was made. If it returns whether it did something, it did; if it returns something that
/// may not be there, it is there.
pub const OK: u32 = 0;

/// The call was made, and did nothing, or there is nothing to return.
pub const FALSE: u32 = 1;

/// Memory ran out.
pub const OUT_OF_MEMORY: u32 = 2;

/// The search pattern is not one of `regex`.
pub const PATTERN_REJECTED: u32 = 3;

/// The atomic ranges are not valid for the text.
pub const RANGES_REJECTED: u32 = 4;

/// There is nothing behind the handle.
pub const EMPTY_HANDLE: u32 = 5;

/// An argument has a value that its type in C allows, but the call does not.
pub const INVALID_ARGUMENT: u32 = 6;

/// Returns the status of a call without a result.
pub fn done(answer: Result<(), AllocError>) -> u32
    ensures ok { OnOk answer (result ≡ 0) }
    ensures no_memory { OnErr answer (result ≡ 2) }
{
    match answer {
        Ok(()) => OK,
        Err(_) => OUT_OF_MEMORY,
    }
}

/// Returns the status of a call that returns whether it did something.
pub fn flag(answer: Result<bool, AllocError>) -> u32
    ensures ok { IfOk answer (λ found. result ≡ (if found then 0 else 1)) }
    ensures no_memory { OnErr answer (result ≡ 2) }
{
    match answer {
        Ok(found) => truth(found),
        Err(_) => OUT_OF_MEMORY,
    }
}

/// Returns the status of a call that only returns whether something is so.
pub fn truth(found: bool) -> u32
    ensures { result ≡ (if found then 0 else 1) }
{
    if found { OK } else { FALSE }
}
