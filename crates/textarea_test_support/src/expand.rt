//! Short forms of long lines.
use std::alloc::{AllocError, Global};

/// Replaces each `<N TEXT>` in the line by N copies of the text. In the text `#` is the number of
/// the copy, from 0, and `;` is a line feed.
pub fn expanded(alloc: Global, line: &str) -> Result<String, AllocError> {
    let mut long = String::new(alloc);
    for (index, segment) in line.split('<').enumerate() {
        match segment.split_once('>') {
            Some((inside, after)) if index != 0 => {
                push_times(&mut long, inside)?;
                long.push_str(after)?;
            }
            _ => long.push_str(segment)?,
        }
    }
    Ok(long)
}

fn push_times(long: &mut String, inside: &str) -> Result<(), AllocError> {
    let (count, text) = counted(inside);
    for time in 0..count {
        push_numbered(long, text, time)?;
    }
    Ok(())
}

fn push_numbered(long: &mut String, text: &str, number: usize) -> Result<(), AllocError> {
    for character in text.chars() {
        match character {
            '#' => write!(long, "{number}")?,
            ';' => long.push('\n')?,
            _ => long.push(character)?,
        }
    }
    Ok(())
}

/// Splits a text into a number before its first space and the rest; without one, it returns 1.
pub fn counted(text: &str) -> (usize, &str) {
    match text.split_once(' ') {
        Some((count, rest)) => match count.parse::<usize>() {
            Ok(count) => (count, rest),
            Err(_) => (1, text),
        },
        None => (1, text),
    }
}

/// Splits a line `times N LINE` into N and the rest; any other line is returned with 1.
pub fn timed(line: &str) -> (usize, &str) {
    match line.strip_prefix("times ") {
        Some(rest) => counted(rest),
        None => (1, line),
    }
}

/// Returns the line n times, each with a line feed.
pub fn repeated(alloc: Global, times: usize, line: &str) -> Result<String, AllocError> {
    let mut lines = String::new(alloc);
    for _ in 0..times {
        lines.push_str(line)?;
        lines.push('\n')?;
    }
    Ok(lines)
}
