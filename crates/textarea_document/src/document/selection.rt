//! The selection of a document.
ghost use Rattle.std.specs.Prelude.{◌≡◌, ◌<◌, ◌≤◌, ◌+◌, OnOk, OnErr, IsOk, IfOk, IfSome, MatchOption, is_some, length, option_map, true, false};
ghost use Rattle.std.specs.Arc.{arc_value};
ghost use Rattle.textarea_document.specs.Prelude.{as_nanos, size_limit, text_of, IsPlace, IsUpTo, index_of, is_before, lines, is_selected, selected_removed, selected_symbols, selection, selection_end, selection_start};
ghost use Rattle.textarea_document.specs.Selection.{first_selected_row, last_selected_row, lines_duplicated, rows_down, with_lines_again};

use crate::document::Document;
use std::alloc::AllocError;
use std::sync::Arc;
use std::time::Duration;
use textarea_history::edit::Edit;
use textarea_text::fragment::copy_fragment;
use textarea_text::places::line_end;

impl Document {
    /// Returns the two ends of the selection, the first one first, even if it is empty.
    pub fn selection(&self) -> Option<((usize, usize), (usize, usize))>
        ensures value { result ≡ selection self.now }
        ensures places { IfSome result (λ ends.
            IsPlace self.now.text ends.0 × IsPlace self.now.text ends.1) }
        ensures ordered { IfSome result (λ ends. IsUpTo ends.0 ends.1) }
    {
        let cursor = self.cursor();
        let anchor = self.anchor()?;
        Some(if comes_before(cursor, anchor) {
            (cursor, anchor)
        } else {
            (anchor, cursor)
        })
    }

    /// Returns the two ends of the selection, the first one first; `None` if no symbol is selected.
    pub fn filled_selection(&self) -> Option<((usize, usize), (usize, usize))>
        ensures found { MatchOption result (is_selected self.now ≡ false)
            (λ ends. is_selected self.now ≡ true) }
        ensures ends { IfSome result (λ ends.
            ends ≡ (selection_start self.now, selection_end self.now)) }
        ensures places { IfSome result (λ ends.
            IsPlace self.now.text ends.0 × IsPlace self.now.text ends.1) }
        ensures ordered { IfSome result (λ ends.
            index_of self.now.text ends.0 < index_of self.now.text ends.1) }
    {
        self.selection().filter(|ends| comes_before(ends.0, ends.1))
    }

    /// Removes the selected text, and returns whether there was any; an empty selection stays.
    pub fn remove_selection(&mut self, now: Duration) -> Result<bool, AllocError>
        ensures removed { IfOk result (λ removed. removed ≡ is_selected self.old) }
        ensures ok { OnOk result (self.new ≡ selected_removed self.old (as_nanos now)) }
        ensures err { OnErr result (self.new ≡ self.old) }
        ensures nothing { is_selected self.old ≡ false → IsOk result }
    {
        let Some((start, end)) = self.filled_selection() else {
            return Ok(false);
        };
        self.remove(start, end, now)?;
        Ok(true)
    }

    /// Removes the selected text, and returns what was removed as a fragment, with a line break
    /// between each two of its strings. `None` if no symbol is selected; an empty selection stays.
    pub fn take_selection(&mut self, now: Duration) -> Result<Option<Arc<Vec<String>>>, AllocError>
        ensures found { IfOk result (λ removed. is_some removed ≡ is_selected self.old) }
        ensures removed { IfOk result (λ removed.
            IfSome removed (λ fragment_lines. text_of (arc_value fragment_lines).items
            ≡ selected_symbols self.old)) }
        ensures ok { OnOk result (self.new ≡ selected_removed self.old (as_nanos now)) }
        ensures err { OnErr result (self.new ≡ self.old) }
        ensures nothing { is_selected self.old ≡ false → IsOk result }
    {
        let Some((start, end)) = self.filled_selection() else {
            return Ok(None);
        };
        Ok(Some(self.take(start, end, now)?))
    }

    /// Inserts the cursor's line once more below it, or the selection's lines below the last of
    /// them, as one edit: those of which the selection holds a character or the break. Cursor and
    /// anchor move down into the copy, and keep their columns; a run of typing ends.
    pub fn duplicate_lines(&mut self, now: Duration) -> Result<(), AllocError>
        ensures ok { OnOk result (self.new ≡ lines_duplicated self.old (as_nanos now)) }
        ensures err { OnErr result (self.new ≡ self.old) }
        ensures lines { OnOk result (lines self.new.text ≡ with_lines_again (lines self.old.text)
            (first_selected_row self.old) (last_selected_row self.old)) }
    {
        let (first, last) = self.selected_rows();
        let count = last + 1 - first;
        let lines = self.lines();
        let start = line_end(lines, last);
        let cursor = self.cursor();
        let anchor = rows_down(self.anchor(), count);
        let mut copy = copy_fragment(self.allocator(), &lines[first..=last])?;
        let empty = String::new(self.allocator());
        copy.insert(0, empty)?;
        let shared = Arc::new(self.allocator(), copy)?;
        let edit = Edit::of_fragment(shared, true, start, (last + count, start.1));
        self.edit(edit, false, now)?;
        self.move_to((cursor.0 + count, cursor.1), anchor);
        Ok(())
    }

    /// Returns the rows of the first and the last of the selection's lines, or twice the cursor's.
    pub fn selected_rows(&self) -> (usize, usize)
        ensures first { result.0 ≡ first_selected_row self.now }
        ensures last { result.1 ≡ last_selected_row self.now }
        ensures ordered { result.0 ≤ result.1 }
        ensures within { result.1 < length (lines self.now.text) }
        ensures small { result.1 < size_limit }
    {
        let cursor = self.cursor();
        let (start, end) = self.selection().unwrap_or((cursor, cursor));
        self.text_layout.places_are_small();
        if start.0 < end.0 && end.1 == 0 {
            (start.0, end.0 - 1)
        } else {
            (start.0, end.0)
        }
    }
}

// Returns the position, if there is one, this number of rows further down.
fn rows_down(place: Option<(usize, usize)>, count: usize) -> Option<(usize, usize)>
    requires { IfSome place (λ place. place.0 + count ≤ usize.MAX) }
    ensures { result ≡ option_map (rows_down count) place }
{
    let (row, column) = place?;
    Some((row + count, column))
}

pub(super) fn comes_before(first: (usize, usize), second: (usize, usize)) -> bool
    ensures { result ≡ is_before first second }
{
    first.0 < second.0 || first.0 == second.0 && first.1 < second.1
}
