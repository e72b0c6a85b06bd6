//! The calls of `history ..` cases, as they are written.
//!
//! A position is a row and a column, from 0. `|` in a text is a line break. `typed MS` before an
//! edit means that it is typed with coalescing at that many milliseconds.
//!
//! - `lines TEXT`, `maximum N`: sets or keeps the lines, with a new history (of at most N edits).
//! - `char R C X`, `break R C`, `insert R C TEXT`: inserts a character, a line break, or a text.
//! - `delete R C`, `remove R C N`: removes the symbol before the position, or N symbols from it on.
//! - `both_ways R C TEXT`: makes the insertion on a copy of the lines, and undoes it there.
//! - `undo`, `redo`, `break_run`.
//!
//! The result of an edit is the lines after it, with `|` for breaks; of an undo and a redo, the
//! cursor's position and the lines, or `none`; of `both_ways`, the lines before the undo, `, ` and
//! those after it.
use std::time::Duration;

/// A position: row and column.
pub type Place = (usize, usize);

#[derive(Clone, Copy)]
pub enum Call<'a> {
    Lines(&'a str),
    Maximum(usize),
    Edit(Edit<'a>, Typed),
    BothWays(Place, &'a str),
    BreakRun,
    Undo,
    Redo,
}

/// Whether an edit is typed with coalescing, and when.
#[derive(Clone, Copy)]
pub struct Typed {
    pub coalesce: bool,
    pub now: Duration,
}

/// An edit of the lines.
#[derive(Clone, Copy)]
pub enum Edit<'a> {
    Char(Place, char),
    Break(Place),
    Insert(Place, &'a str),
    Delete(Place),
    Remove(Place, usize),
}

/// Returns the call of a line.
pub fn call_of(line: &str) -> Option<Call<'_>> {
    match line {
        "undo" => return Some(Call::Undo),
        "redo" => return Some(Call::Redo),
        "break_run" => return Some(Call::BreakRun),
        _ => {}
    }
    let (name, rest) = line.split_once(' ')?;
    match name {
        "lines" => Some(Call::Lines(rest)),
        "maximum" => Some(Call::Maximum(rest.parse().ok()?)),
        "typed" => typed_of(rest),
        "both_ways" => {
            let (place, text) = place_of(rest)?;
            Some(Call::BothWays(place, text))
        }
        _ => Some(Call::Edit(edit_of(line)?, untyped())),
    }
}

fn untyped() -> Typed {
    Typed {
        coalesce: false,
        now: Duration::ZERO,
    }
}

// The edit after the time at which it is typed.
fn typed_of(text: &str) -> Option<Call<'_>> {
    let (now, edit) = text.split_once(' ')?;
    let now = Duration::from_millis(now.parse().ok()?);
    let typed = Typed {
        coalesce: true,
        now,
    };
    Some(Call::Edit(edit_of(edit)?, typed))
}

fn edit_of(line: &str) -> Option<Edit<'_>> {
    let (name, rest) = line.split_once(' ')?;
    let (place, text) = place_of(rest)?;
    match name {
        "char" => Some(Edit::Char(place, text.chars().next()?)),
        "break" => Some(Edit::Break(place)),
        "insert" => Some(Edit::Insert(place, text)),
        "delete" => Some(Edit::Delete(place)),
        "remove" => Some(Edit::Remove(place, text.parse().ok()?)),
        _ => None,
    }
}

// The position at the start of a text, and the text after it.
fn place_of(text: &str) -> Option<(Place, &str)> {
    let (row, rest) = text.split_once(' ')?;
    let (column, rest) = rest.split_once(' ').unwrap_or((rest, ""));
    Some(((row.parse().ok()?, column.parse().ok()?), rest))
}
