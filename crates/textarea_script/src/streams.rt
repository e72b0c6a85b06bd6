//! Shared by scripts and sessions: exit statuses, failures, and reading and writing whole streams.
ghost use Rattle.std.specs.Prelude.{◌≡◌, ◌≤◌, ◌<◌, ◌≢◌, IfErr, IfOk, IfSome, OnOk};
ghost use Rattle.std.specs.Io.KnownBytes.{Appends};
ghost use Rattle.textarea_script.specs.Failures.{status_of};

use std::alloc::{AllocError, Global};
use std::io::{Read, Write};
use textarea_script_syntax::commands::ReadError;

/// The input was run, and its end was printed.
pub const DONE: u8 = 0;

/// The input can't be read, or the output can't be written.
pub const STREAM_FAILED: u8 = 1;

/// A line of a script is no command; the input isn't UTF-8; or the arguments are unknown.
pub const UNPARSED: u8 = 2;

/// Out of memory.
pub const OUT_OF_MEMORY: u8 = 3;

/// Why nothing was printed, or only a prefix.
#[derive(Drop)]
pub enum Failure {
    /// A stream failed.
    Stream,
    /// The number, counted from 1, of a line that is no command or isn't UTF-8.
    Line(usize),
    /// The input isn't UTF-8, or the arguments are unknown.
    NotRead,
    /// Out of memory.
    Memory,
}

impl From<AllocError> for Failure {
    ghost use Rattle.textarea_script.specs.declared.streams.Failure.{Failure};

    ghost from_gives = { λ _ failure. failure ≡ Failure.Memory };

    fn from(_error: AllocError) -> Failure {
        Failure::Memory
    }
}

impl From<ReadError> for Failure {
    fn from(error: ReadError) -> Failure {
        match error {
            ReadError::Line(number) => Failure::Line(number),
            ReadError::Memory => Failure::Memory,
        }
    }
}

/// Returns the exit status. Writes a line to `errors` if input is unparsed or memory ran out.
pub fn status<E: Write>(outcome: Result<(), Failure>, errors: &mut E) -> u8
    ensures status { result ≡ status_of outcome }
    ensures quiet { result ≤ STREAM_FAILED → errors.new ≡ errors.old }
{
    match outcome {
        Ok(()) => DONE,
        Err(Failure::Stream) => STREAM_FAILED,
        Err(Failure::Line(number)) => {
            let _ = writeln!(errors, "line {number}: not read");
            UNPARSED
        }
        Err(Failure::NotRead) => {
            let _ = writeln!(errors, "not read");
            UNPARSED
        }
        Err(Failure::Memory) => {
            let _ = writeln!(errors, "no memory");
            OUT_OF_MEMORY
        }
    }
}

/// Reads all bytes of a reader.
pub fn read_whole<R: Read>(alloc: Global, reader: &mut R) -> Result<Vec<u8>, Failure>
    ensures bytes { IfOk result
        (λ bytes. IfSome (R.remaining reader.old) (λ all. bytes.items ≡ all)) }
    ensures fails { IfErr result (λ failure. failure ≡ Failure.Stream) }
{
    let mut bytes = Vec::new(alloc);
    if reader.read_to_end(&mut bytes).is_err() {
        return Err(Failure::Stream);
    }
    Ok(bytes)
}

/// Writes the whole text. If that fails, a prefix of it is written.
pub fn write_whole<W: Write>(output: &mut W, text: &str) -> Result<(), Failure>
    ensures done { OnOk result (Appends (W.contents output.old) (W.contents output.new) text.now) }
    ensures fails { IfErr result (λ failure. failure ≡ Failure.Stream) }
{
    if output.write_all(text.as_bytes()).is_err() || output.flush().is_err() {
        return Err(Failure::Stream);
    }
    Ok(())
}
