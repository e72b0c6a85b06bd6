//! The whole of `tascript`, over any reader and two writers: a script, or a session of the modal
//! editor, as the arguments say.
ghost use Rattle.std.specs.Prelude.{◌≡◌, ◌≢◌, map, string_bytes};
ghost use Rattle.std.specs.IoError.{error_kind};
ghost use Rattle.textarea_script.specs.Failures.{IsExit};
ghost use Rattle.textarea_script.specs.Session.{IsSessionServed};
ghost use Rattle.textarea_script.specs.declared.streams.TheConstants.{UNPARSED, OUT_OF_MEMORY};
ghost use Rattle.textarea_script.specs.ProgramArguments.{AskForNothing, AskForSession, IsAsked};

use crate::streams::{Failure, status};
use crate::{modal, script};
use std::alloc::Global;
use std::io;
use std::io::{ErrorKind, Read, Write};

// What the arguments ask for.
#[derive(Drop)]
enum Asked {
    // A script: there are no arguments.
    Script,
    // A session: the only argument is `modal`.
    Session,
    // The arguments are unknown.
    Nothing,
}

/// Does what the arguments ask for: without arguments a script
/// ([`script::serve`](crate::script::serve)), with the only argument `modal` a session
/// ([`modal::serve`](crate::modal::serve)). Others are unknown: nothing is read, `errors` gets one
/// line, and the status is `UNPARSED`.
pub fn serve_arguments<R: Read, W: Write, E: Write>(
    alloc: Global,
    words: &[String],
    reader: &mut R,
    output: &mut W,
    errors: &mut E,
) -> u8
    ensures exit { IsExit result (output.new ≡ output.old) (errors.new ≡ errors.old) }
    ensures session { AskForSession (map string_bytes words.now) → IsSessionServed result
        (R.remaining reader.old) (W.contents output.old) (W.contents output.new) }
    ensures not_understood { AskForNothing (map string_bytes words.now) →
        (result ≡ UNPARSED) × (reader.new ≡ reader.old) }
{
    match asked_for(words) {
        Asked::Script => script::serve(alloc, reader, output, errors),
        Asked::Session => modal::serve(alloc, reader, output, errors),
        Asked::Nothing => status(Err(Failure::NotRead), errors),
    }
}

/// Writes to `errors` why there are no arguments: out of memory, or not UTF-8. Returns the exit
/// status.
pub fn serve_bad_arguments<E: Write>(error: &io::Error, errors: &mut E) -> u8
    ensures memory { error_kind error.now ≡ ErrorKind.OutOfMemory → result ≡ OUT_OF_MEMORY }
    ensures not_read { error_kind error.now ≢ ErrorKind.OutOfMemory → result ≡ UNPARSED }
{
    match error.kind() {
        ErrorKind::OutOfMemory => status(Err(Failure::Memory), errors),
        _ => status(Err(Failure::NotRead), errors),
    }
}

fn asked_for(words: &[String]) -> Asked
    ensures { IsAsked (map string_bytes words.now) result }
{
    match words {
        [] => Asked::Script,
        [word] if word.as_str() == "modal" => Asked::Session,
        _ => Asked::Nothing,
    }
}
