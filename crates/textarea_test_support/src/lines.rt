//! The lines of a case.
use crate::stop::Stop;
use std::alloc::{AllocError, Global};
use textarea_calls::Call;
use textarea_script_syntax::commands::{Command, read};

/// Returns the lines of a case after its comments. A `\u{20}` at a line's end becomes a blank.
pub fn plain(alloc: Global, case: &str) -> Result<String, AllocError> {
    let mut lines = String::new(alloc);
    for line in case.lines().skip_while(|line| line.starts_with("# ")) {
        match line.strip_suffix("\\u{20}") {
            Some(line) => writeln!(lines, "{line} ")?,
            None => writeln!(lines, "{line}")?,
        }
    }
    Ok(lines)
}

/// Returns the keys in the first line of a case, after `> `, and the lines after it.
pub fn keys_and_rest(alloc: Global, case: &str) -> Result<(String, &str), Stop> {
    let (first, rest) = case.split_once('\n').unwrap_or((case, ""));
    let Some(keys) = first.strip_prefix("> ") else {
        return Err(Stop::Unparsed);
    };
    Ok((unescaped(alloc, keys)?, rest))
}

/// Replaces the escapes of scripts in a text.
pub fn unescaped(alloc: Global, text: &str) -> Result<String, Stop> {
    let line = format!(in alloc; "insert_str {text}")?;
    let commands = read(alloc, line.as_bytes())?;
    text_of(alloc, commands.as_slice())
}

// The text that the first command inserts.
fn text_of(alloc: Global, commands: &[Command]) -> Result<String, Stop> {
    match commands.first() {
        Some(command) => match command.call() {
            Call::InsertStr(text) => Ok(String::from_str(alloc, text)?),
            _ => Err(Stop::Unparsed),
        },
        None => Err(Stop::Unparsed),
    }
}
