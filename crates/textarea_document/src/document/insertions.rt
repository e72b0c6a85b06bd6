//! Insertions at the cursor, or at the end of the atomic range that strictly contains it.
ghost use Rattle.std.specs.Prelude.{◌≡◌, ◌<◌, ◌≤◌, true, OnOk, OnErr, IsOk, IfOk, All, []};
ghost use Rattle.std.specs.Arc.{arc_value};
ghost use Rattle.textarea_document.specs.Prelude.{as_nanos, size_limit, text_of, IsPlace, size_of, IsInside, break_inserted, character_inserted, insertion_place, has_symbols, nothing_inserted, symbols_inserted};

use crate::document::Document;
use crate::document::edits::edit_of;
use std::alloc::AllocError;
use std::sync::Arc;
use std::time::Duration;
use textarea_data::range::AtomicCursorBias;
use textarea_history::edit::{Edit, EditKind};
use textarea_ranges::lookup::move_out;
use textarea_text::places::end_of;
use textarea_text::rows;

impl Document {
    /// Returns the insertion position: the cursor, or the end of the range strictly containing it.
    pub fn insertion_place(&self) -> (usize, usize)
        ensures value { result ≡ insertion_place self.now }
        ensures place { IsPlace self.now.text result }
        ensures small { (result.0 < size_limit) × (result.1 ≤ size_limit) }
        ensures outside { All (λ range. ¬ IsInside result range) self.now.ranges }
    {
        self.text_layout.places_are_small();
        let stored = self.ranges();
        move_out(stored, self.cursor(), AtomicCursorBias::Forward)
    }

    /// Moves the cursor to the insertion position, and drops the selection; nothing is recorded.
    pub fn insert_nothing(&mut self)
        ensures { self.new ≡ nothing_inserted self.old }
    {
        self.cursor = self.insertion_place();
        self.anchor = None;
    }

    /// Inserts the character at the insertion position, as typed or not, even if it is a line feed.
    pub fn insert_character(
        &mut self,
        c: char,
        typed: bool,
        now: Duration,
    ) -> Result<(), AllocError>
        ensures ok { OnOk result (self.new ≡ character_inserted self.old c typed (as_nanos now)) }
        ensures err { OnErr result (self.new ≡ self.old) }
    {
        let (row, column) = self.insertion_place();
        let edit = Edit::between(EditKind::InsertChar(c), (row, column), (row, column + 1));
        self.edit(edit, typed, now)
    }

    /// Breaks the line at the insertion position.
    pub fn insert_break(&mut self, now: Duration) -> Result<(), AllocError>
        ensures ok { OnOk result (self.new ≡ break_inserted self.old (as_nanos now)) }
        ensures err { OnErr result (self.new ≡ self.old) }
    {
        let (row, column) = self.insertion_place();
        let edit = Edit::between(EditKind::InsertNewline, (row, column), (row + 1, 0));
        self.edit(edit, false, now)
    }

    /// Inserts the fragment at the insertion position, with a line break between each two of its
    /// strings, and returns whether it has a symbol. Without one the cursor moves there and the
    /// selection is dropped. A fragment larger than any text is an out-of-memory error.
    pub fn insert(
        &mut self,
        fragment_lines: Arc<Vec<String>>,
        now: Duration,
    ) -> Result<bool, AllocError>
        ensures inserted { IfOk result
            (λ inserted. inserted ≡ has_symbols (text_of (arc_value fragment_lines).items)) }
        ensures ok { OnOk result
            (self.new ≡ symbols_inserted self.old (text_of (arc_value fragment_lines).items)
            (as_nanos now)) }
        ensures err { OnErr result (self.new ≡ self.old) }
        ensures nothing { text_of (arc_value fragment_lines).items ≡ [] → IsOk result }
        ensures limit { IfOk result
            (λ inserted. inserted ≡ true → size_of (arc_value fragment_lines).items ≤ size_limit) }
    {
        if !has_symbol(fragment_lines.as_slice()) {
            self.insert_nothing();
            return Ok(false);
        }
        rows::size_within_limit(fragment_lines.as_slice())?;
        let start = self.insertion_place();
        let end = end_of(start, fragment_lines.as_slice());
        let edit = edit_of(fragment_lines, true, start, end)?;
        self.edit(edit, false, now)?;
        Ok(true)
    }
}

/// Returns whether the fragment has a symbol: a break between two of its strings, or a character.
pub fn has_symbol(fragment_lines: &[String]) -> bool
    ensures { result ≡ has_symbols (text_of fragment_lines.now) }
{
    match fragment_lines {
        [] => false,
        [line] => !line.is_empty(),
        _ => true,
    }
}
