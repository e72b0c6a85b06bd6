//! Prints the events of terminals' bytes, and the bytes of painted frames.
//!
//! Each line of standard input is one of these, which are served in order:
//!
//! - A case of the decoder: its name (which may contain blanks), a tab, and bytes as hexadecimal
//!   digits, with a blank between the slices that are fed one by one. Between them the words
//!   `asked`, `resizes`, `console`, `idle` (a short pause) and `pause` (a long one) are calls of the
//!   decoder. Prints the name, and each event after a semicolon and a blank; `idle` is called after
//!   the last slice.
//! - `random N`: decodes N random byte strings at once, in slices of random lengths and byte by
//!   byte, and prints whether the events are the same.
//! - `stream SEED N`: decodes N blocks of 64 KiB, half of them what terminals send, in one piece and
//!   in slices of random lengths, and prints whether the events are the same.
//! - A command of the painter (see `painting`), such as `paint`, which prints the painted bytes.
//! - A comment, which begins with `# ` and is printed unchanged.
//!
//! `tools/terminal-vectors` makes the decoder's cases from what terminals and tmux send and from
//! `vectors.txt`; `tools/try-painter` shows painted frames in tmux.
//!
//! A call of the decoder or the painter that runs out of memory must change nothing: it is repeated
//! once, and must then print the same. Standard error gets the number of such calls, if there are
//! any (see `tools/refused-memory`).
//!
//! The exit status is 0; 1 if a stream failed; 3 if memory ran out; 4 if a line is unparsed or the
//! events of random strings differ.
#![tactic(auto)]

mod decode;
mod painting;
mod random;
mod session;
mod text;

use crate::session::Session;
use std::alloc::{AllocError, Global};
use std::io::{self, Read, Write};
use std::process::ExitCode;

const STREAM_FAILED: u8 = 1;

const NO_MEMORY: u8 = 3;

const WRONG: u8 = 4;

fn main(rt: HostRuntime) -> ExitCode {
    let mut text = String::new(rt.alloc());
    if rt.stdin().read_to_string(&mut text).is_err() {
        return ExitCode::from(STREAM_FAILED);
    }
    let served = match serve(rt.alloc(), text.as_str()) {
        Ok(Some(served)) => served,
        Ok(None) => return ExitCode::from(WRONG),
        Err(_) => return ExitCode::from(NO_MEMORY),
    };
    if rt.stdout().write_all(served.printed()).is_err() {
        return ExitCode::from(STREAM_FAILED);
    }
    if tell_out_of_memory(&rt, served.out_of_memory_count()).is_err() {
        return ExitCode::from(STREAM_FAILED);
    }
    ExitCode::from(if served.is_right() { 0 } else { WRONG })
}

// Prints how many calls ran out of memory, if any did.
fn tell_out_of_memory(rt: &impl Eprint, out_of_memory_count: usize) -> io::Result<()> {
    if out_of_memory_count > 0 {
        eprintln!(rt; "{out_of_memory_count} refused")?;
    }
    Ok(())
}

// Serves the lines of a text; `None` if one is unparsed.
fn serve(alloc: Global, text: &str) -> Result<Option<Session>, AllocError> {
    let mut session = Session::new(alloc)?;
    for line in text.lines() {
        if !session.serve(alloc, line)? {
            return Ok(None);
        }
    }
    Ok(Some(session))
}
