//! The symbol after the cursor.
ghost use Rattle.std.specs.Prelude.{◌≡◌, ◌≤◌, IfSome, MatchOption, ◌∷◌, ◌+◌, drop, take, encode_utf8_all, length, option_map};
ghost use Rattle.textarea_document.specs.Prelude.{chars, offset_at, lines_of, symbol_in, text_of, IsPlace, IsPlaceOf, index_of, cursor_index, IsSymbolAfter, next_place};

use crate::document::Document;
use textarea_text::places::line_of;

// The symbol after a position, and its end: a character, or `None` for the break between two lines.
#[derive(Clone, Copy)]
pub(super) struct SymbolAfter {
    pub(super) end: (usize, usize),
    pub(super) character: Option<char>,
}

impl Document {
    // Returns the symbol after the cursor; `None` at the text's end. Of a long line only the text
    // from the nearest known position on is read.
    pub(super) fn symbol_after_cursor(&self) -> Option<SymbolAfter>
        ensures symbol { MatchOption result (cursor_index self.now ≡ length self.now.text)
            (λ after. IsSymbolAfter self.now.text self.now.cursor after.end
            (symbol_in after.character)) }
        ensures next { option_map (λ after. after.end) result
            ≡ next_place self.now.text self.now.cursor }
        ensures place { IfSome result (λ after. IsPlace self.now.text after.end) }
    {
        let cursor = self.cursor();
        let offset = self.text_layout.offset_of(cursor);
        symbol_after(self.lines(), cursor, offset)
    }
}

// Returns the symbol after the position, at byte `offset` of its line; `None` at the text's end.
fn symbol_after(lines: &[String], place: (usize, usize), offset: usize) -> Option<SymbolAfter>
    requires place { IsPlaceOf (lines_of lines.now) place }
    requires offset { offset ≡ offset_at (lines_of lines.now) place }
    ensures { MatchOption result (index_of (text_of lines.now) place ≡ length (text_of lines.now))
        (λ after.
        IsSymbolAfter (text_of lines.now) place after.end (symbol_in after.character)) }
{
    let (row, column) = place;
    if let Some(c) = character_after(line_of(lines, row), column, offset) {
        return Some(SymbolAfter {
            end: (row, column + 1),
            character: Some(c),
        });
    }
    if row + 1 == lines.len() {
        return None;
    }
    Some(SymbolAfter {
        end: (row + 1, 0),
        character: None,
    })
}

// Returns the character after the column of a line, at byte `offset`; `None` at the line's end.
fn character_after(line: &str, column: usize, offset: usize) -> Option<char>
    requires column { column ≤ length (chars line.now) }
    requires offset { offset ≡ length (encode_utf8_all (take column (chars line.now))) }
    ensures { MatchOption result (column ≡ length (chars line.now))
        (λ c. drop column (chars line.now) ≡ c ∷ drop (column + 1) (chars line.now)) }
{
    line[offset..].chars().next()
}
