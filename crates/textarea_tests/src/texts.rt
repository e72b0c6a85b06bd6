// Texts, as strings and as lines.
use std::alloc::{AllocError, Global};
use std::str::from_utf8;

pub fn strings(alloc: Global, texts: &[&str]) -> Result<Vec<String>, AllocError> {
    let mut strings = Vec::new(alloc);
    for text in texts {
        strings.push(String::from_str(alloc, text)?)?;
    }
    Ok(strings)
}

/// Returns whether the lines are these.
pub fn are_lines(lines: &[String], wanted: &[&str]) -> bool {
    for (line, wanted) in lines.iter().zip(wanted) {
        if line.as_str() != *wanted {
            return false;
        }
    }
    lines.len() == wanted.len()
}

/// Returns the bytes as text, or `no UTF-8`.
pub fn text_of(bytes: &[u8]) -> &str {
    from_utf8(bytes).unwrap_or("no UTF-8")
}
