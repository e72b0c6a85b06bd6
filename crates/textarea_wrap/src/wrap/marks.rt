//! Marks of a line's rows: positions whose column and byte offset are both known.
ghost use Rattle.std.specs.Prelude.{◌≡◌, ◌-◌, ◌/◌, ◌<◌, ◌≤◌, ◌++◌, ℕ, chars, get_or, length, take, IsOk, OnOk};
ghost use Rattle.textarea_wrap.specs.Prelude.{AllByRecursion, AreMarkedUntil, marks_of, IsRowRange};

use super::Ranges;
use std::alloc::AllocError;

/// Appends a mark for every eighth row of the line: the number of characters before it, and the
/// offset of its first byte. Fewer than eight rows need no memory.
pub fn push_marks(rows: &mut Ranges, line: &str) -> Result<(), AllocError>
    requires placed { AllByRecursion (IsRowRange line.now) rows.old.items }
    requires ordered { (i j : ℕ) → i ≤ j → j < length rows.old.items
        → (get_or rows.old.items i (0, 0)).0 ≤ (get_or rows.old.items j (0, 0)).0 }
    ensures marks { OnOk result
        (rows.new.items ≡ rows.old.items ++ marks_of line.now rows.old.items) }
    ensures none { length rows.old.items < 8 → IsOk result }
{
    push_marks_from(rows, line, 0, (0, 0))
}

/// The same, if the first marks are known.
pub fn push_marks_after(
    rows: &mut Ranges,
    line: &str,
    known: &[(usize, usize)],
) -> Result<(), AllocError>
    requires placed { AllByRecursion (IsRowRange line.now) rows.old.items }
    requires ordered { (i j : ℕ) → i ≤ j → j < length rows.old.items
        → (get_or rows.old.items i (0, 0)).0 ≤ (get_or rows.old.items j (0, 0)).0 }
    requires few { length known.now ≤ length rows.old.items / 8 }
    requires known { known.now ≡ take (length known.now) (marks_of line.now rows.old.items) }
    ensures { OnOk result (rows.new.items ≡ rows.old.items ++ marks_of line.now rows.old.items) }
{
    rows.extend_from_slice(known)?;
    push_marks_from(rows, line, known.len(), last_mark(known))
}

// Returns the last of the marks, or the start of the line.
fn last_mark(marks: &[(usize, usize)]) -> (usize, usize)
    ensures none { length marks.now ≡ 0 → result ≡ (0, 0) }
    ensures some { 0 < length marks.now → result ≡ get_or marks.now (length marks.now - 1) (0, 0) }
{
    match marks.last() {
        Some(mark) => *mark,
        None => (0, 0),
    }
}

// Appends the marks from the mark `first` on. The ranges are followed by the marks before it, of
// which `last` is the last one.
fn push_marks_from(
    rows: &mut Ranges,
    line: &str,
    first: usize,
    last: (usize, usize),
) -> Result<(), AllocError>
    requires { AreMarkedUntil line.now (take (length rows.old.items - first) rows.old.items)
        rows.old.items first last }
    ensures marks { OnOk result (rows.new.items
        ≡ take (length rows.old.items - first) rows.old.items
        ++ marks_of line.now (take (length rows.old.items - first) rows.old.items)) }
    ensures none { length rows.old.items - first < 8 → IsOk result }
{
    let (mut column, mut from) = last;
    for index in first..(rows.len() - first) / 8 {
        let start = rows.as_slice()[8 * index + 7].0;
        column += character_count(&line[from..start]);
        rows.push((column, start))?;
        from = start;
    }
    Ok(())
}

#[tactic(auto, using(std::proofs::lemmas::Str::chars_from_encodes))]
fn character_count(text: &str) -> usize
    ensures { result ≡ length (chars text.now) }
{
    text.chars().count()
}
