//! Text areas with the lines of an iterator.
ghost use Rattle.std.specs.Prelude.{◌≡◌, IfOk, List, ℕ, String};
ghost use Rattle.std.specs.Borrow.{Bor};
ghost use Rattle.std.specs.Iterator.{IsFinite, Drains};
ghost use Rattle.std.specs.Str.{chars};
ghost use Rattle.tui_textarea.specs.Prelude.{text_of, fragment_symbols, without_last_break, new_state, text_of_each};

use crate::textarea::TextArea;
use std::alloc::{AllocError, Global};
use textarea_text::fragment::lines_of_file;

impl<'b> TextArea<'b> {
    /// Returns a text area with the text of a file and the cursor at the start. Each line feed ends
    /// a line, and one at the text's end begins no line; a carriage return directly before a line
    /// feed is dropped.
    pub fn from_text(alloc: Global, text: &str) -> Result<Self, AllocError>
        ensures { IfOk result (λ area.
            area ≡ new_state (without_last_break (fragment_symbols (chars text.now)))) }
    {
        let lines = lines_of_file(alloc, text)?;
        TextArea::new(lines)
    }

    /// Returns a text area with the iterator's lines and the cursor at the start. Without any it
    /// has one empty line. A line feed inside a line stays a character of that line.
    pub fn from_strings<I: Iterator<Item = String> + Drop>(
        alloc: Global,
        lines: I,
    ) -> Result<Self, AllocError>
        requires can { I.can_next lines }
        requires ends { IsFinite (I.remaining lines) }
        ensures { IfOk result
            (λ area. (strings : List (String Global)) × Drains I.next_gives lines strings
            × (area ≡ new_state (text_of strings))) }
    {
        let all = collect_lines(alloc, lines)?;
        TextArea::new(all)
    }

    /// Returns a text area with copies of the iterator's lines and the cursor at the start. Without
    /// any it has one empty line. A line feed inside a line stays a character of that line.
    pub fn from_strs<'a, I: Iterator<Item = &'a str> + Drop>(
        alloc: Global,
        lines: I,
    ) -> Result<Self, AllocError>
        requires can { I.can_next lines }
        requires ends { IsFinite (I.remaining lines) }
        ensures { IfOk result
            (λ area. (texts : List (Bor (List ℕ))) × Drains I.next_gives lines texts
            × (area ≡ new_state (text_of_each texts))) }
    {
        let all = copy_lines(alloc, lines)?;
        TextArea::new(all)
    }
}

fn collect_lines<I: Iterator<Item = String> + Drop>(
    alloc: Global,
    lines: I,
) -> Result<Vec<String>, AllocError>
    requires can { I.can_next lines }
    requires ends { IsFinite (I.remaining lines) }
    ensures { IfOk result
        (λ all. (strings : List (String Global)) × Drains I.next_gives lines strings
        × (all.items ≡ strings)) }
{
    lines.collect(alloc)
}

fn copy_lines<'a, I: Iterator<Item = &'a str> + Drop>(
    alloc: Global,
    lines: I,
) -> Result<Vec<String>, AllocError>
    requires can { I.can_next lines }
    requires ends { IsFinite (I.remaining lines) }
    ensures { IfOk result
        (λ all. (texts : List (Bor (List ℕ))) × Drains I.next_gives lines texts
        × (text_of all.items ≡ text_of_each texts)) }
{
    let mut all = Vec::new(alloc);
    for line in lines {
        all.push(String::from_str(alloc, line)?)?;
    }
    Ok(all)
}
