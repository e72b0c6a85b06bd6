//! Insertions. Each but `duplicate_line` first removes the selected text, as its own edit, and then
//! moves a cursor that is strictly inside an atomic range to the range's end. With grouping on, both
//! edits are one group. After all, cursor and anchor are settled.
ghost use Rattle.std.specs.Prelude.{◌≡◌, ◌<◌, OnOk, OnErr, IsOk, IfOk, true, false, not, [], length, replicate, vec_len, ◌&&◌, if◌then◌else◌};
ghost use Rattle.std.specs.Arc.{arc_value};
ghost use Rattle.std.specs.Str.{chars};
ghost use Rattle.textarea_data.specs.declared.range.AtomicCursorBias.TheVariants.{Forward};
ghost use Rattle.textarea_document.specs.Selection.{first_selected_row, last_selected_row, lines_duplicated, with_lines_again};
ghost use Rattle.tui_textarea.specs.Fitting.{fitting_beside};
ghost use Rattle.tui_textarea.specs.Prelude.{Character, lines, with_document, text_of, has_symbols, is_selected, fragment_symbols, pasted_symbols, inserts_tab, inserts_text, symbols_or_none_inserted, spaces_to_stop, char_inserted, char_or_break_inserted, line_broken, newline_inserted, tab_inserted, tab_or_spaces_inserted, str_inserted, IsInsertOutOfMemory, selection_cancelled, unselected, admitted_over_selection, bars_break, bars_character, bars_duplicate, bars_tab, fitting_selection, fitting_spaces, is_editable, unless_read_only, settled};

use crate::textarea::TextArea;
use std::alloc::{AllocError, Global};
use std::sync::Arc;
use textarea_data::range::AtomicCursorBias;
use textarea_document::document::insertions::has_symbol;
use textarea_text::fragment::unify_line_ends;
use textarea_text::tab::spaces_to_stop;
use textarea_text::util::spaces;

impl TextArea<'_> {
    /// Inserts the character at the cursor, or at the end of the atomic range that strictly
    /// contains it, as typed; `\n` and `\r` break the line.
    pub fn insert_char(&mut self, c: char) -> Result<(), AllocError>
        ensures ok { OnOk result (self.new ≡ (if bars_character self.old c then self.old else
            settled Forward (char_inserted self.old c))) }
        ensures err { OnErr result (IsInsertOutOfMemory self.old self.new) }
        ensures nothing { bars_character self.old c ≡ true → IsOk result }
    {
        if self.bars_character(c) {
            return Ok(());
        }
        self.insert_char_unguarded(c)
    }

    // The same, whether a guard leaves it out or not.
    fn insert_char_unguarded(&mut self, c: char) -> Result<(), AllocError>
        ensures ok { OnOk result (self.new ≡ settled Forward (char_inserted self.old c)) }
        ensures err { OnErr result (IsInsertOutOfMemory self.old self.new) }
    {
        let opens = self.begin_call();
        let inserted = self.replace_by_char(c);
        self.end_call(opens);
        inserted
    }

    // Replaces the selected text by the character, or by the break that it means.
    fn replace_by_char(&mut self, c: char) -> Result<(), AllocError>
        ensures ok { OnOk result
            (self.new ≡ settled Forward (char_or_break_inserted (unselected self.old) c)) }
        ensures err { OnErr result (IsInsertOutOfMemory self.old self.new) }
    {
        self.document.remove_selection(self.time)?;
        let inserted = self.insert_char_or_break(c);
        self.settle(AtomicCursorBias::Forward);
        inserted
    }

    // Inserts the character at the insertion position, or breaks the line there.
    fn insert_char_or_break(&mut self, c: char) -> Result<(), AllocError>
        ensures ok { OnOk result (self.new ≡ char_or_break_inserted self.old c) }
        ensures err { OnErr result (self.new ≡ self.old) }
    {
        if c == '\n' || c == '\r' {
            return self.document.insert_break(self.time);
        }
        self.document
            .insert_character(c, self.settings.undo_coalescing, self.time)
    }

    /// Breaks the line at the cursor, or at the end of the atomic range that strictly contains it.
    pub fn insert_newline(&mut self) -> Result<(), AllocError>
        ensures ok { OnOk result (self.new ≡ (if bars_break self.old then self.old else
            settled Forward (newline_inserted self.old))) }
        ensures err { OnErr result (IsInsertOutOfMemory self.old self.new) }
        ensures nothing { bars_break self.old ≡ true → IsOk result }
    {
        if self.bars_break() {
            return Ok(());
        }
        self.insert_newline_unguarded()
    }

    // The same, whether a guard leaves it out or not.
    fn insert_newline_unguarded(&mut self) -> Result<(), AllocError>
        ensures ok { OnOk result (self.new ≡ settled Forward (newline_inserted self.old)) }
        ensures err { OnErr result (IsInsertOutOfMemory self.old self.new) }
    {
        let opens = self.begin_call();
        let inserted = self.replace_by_break();
        self.end_call(opens);
        inserted
    }

    // Replaces the selected text by a line break.
    fn replace_by_break(&mut self) -> Result<(), AllocError>
        ensures ok { OnOk result (self.new ≡ settled Forward (line_broken (unselected self.old))) }
        ensures err { OnErr result (IsInsertOutOfMemory self.old self.new) }
    {
        self.document.remove_selection(self.time)?;
        let inserted = self.document.insert_break(self.time);
        self.settle(AtomicCursorBias::Forward);
        inserted
    }

    /// Inserts the text at the cursor, or at the end of the atomic range that strictly contains it,
    /// and returns whether it inserted something or removed a selection. Each line feed breaks the
    /// line; a carriage return directly before it is dropped.
    pub fn insert_str(&mut self, text: &str) -> Result<bool, AllocError>
        ensures inserted { IfOk result (λ inserted. inserted ≡ (is_editable self.old && inserts_text
            self.old (admitted_over_selection self.old (fragment_symbols (chars text.now))))) }
        ensures ok { OnOk result (self.new ≡ unless_read_only self.old (settled Forward (str_inserted
            self.old (admitted_over_selection self.old (fragment_symbols (chars text.now)))))) }
        ensures err { OnErr result (IsInsertOutOfMemory self.old self.new) }
        ensures nothing { (is_editable self.old && inserts_text self.old (fragment_symbols (chars
            text.now))) ≡ false → IsOk result }
    {
        if self.read_only() {
            return Ok(false);
        }
        self.insert_str_unguarded(text)
    }

    // The same, whether a guard leaves it out or not.
    fn insert_str_unguarded(&mut self, text: &str) -> Result<bool, AllocError>
        ensures inserted { IfOk result
            (λ inserted. inserted ≡ inserts_text self.old
            (admitted_over_selection self.old (fragment_symbols (chars text.now)))) }
        ensures ok { OnOk result
            (self.new ≡ settled Forward (str_inserted self.old (admitted_over_selection self.old
            (fragment_symbols (chars text.now))))) }
        ensures err { OnErr result (IsInsertOutOfMemory self.old self.new) }
        ensures nothing { inserts_text self.old (fragment_symbols (chars text.now)) ≡ false → IsOk
            result }
    {
        if !has_text(text) {
            return self.insert_nothing();
        }
        let removes = self.document.filled_selection().is_some();
        let fragment_lines = self.admitted_fragment(text)?;
        let inserts = self.insert_over_selection(fragment_lines)?;
        if removes {
            return Ok(true);
        }
        Ok(inserts)
    }

    /// Inserts a text that was pasted from outside, where `insert_str` inserts, and returns whether
    /// it inserted something or removed a selection. Each line end breaks the line: a line feed, a
    /// carriage return, or a carriage return and a line feed.
    pub fn insert_pasted(&mut self, text: &str) -> Result<bool, AllocError>
        ensures inserted { IfOk result (λ inserted. inserted ≡ (is_editable self.old && inserts_text
            self.old (admitted_over_selection self.old (pasted_symbols (chars text.now))))) }
        ensures ok { OnOk result (self.new ≡ unless_read_only self.old (settled Forward (str_inserted
            self.old (admitted_over_selection self.old (pasted_symbols (chars text.now)))))) }
        ensures err { OnErr result (IsInsertOutOfMemory self.old self.new) }
        ensures nothing { (is_editable self.old && inserts_text self.old (pasted_symbols (chars
            text.now))) ≡ false → IsOk result }
    {
        if self.read_only() {
            return Ok(false);
        }
        self.insert_pasted_unguarded(text)
    }

    // The same, whether a guard leaves it out or not.
    fn insert_pasted_unguarded(&mut self, text: &str) -> Result<bool, AllocError>
        ensures inserted { IfOk result
            (λ inserted. inserted ≡ inserts_text self.old
            (admitted_over_selection self.old (pasted_symbols (chars text.now)))) }
        ensures ok { OnOk result
            (self.new ≡ settled Forward (str_inserted self.old (admitted_over_selection self.old
            (pasted_symbols (chars text.now))))) }
        ensures err { OnErr result (IsInsertOutOfMemory self.old self.new) }
        ensures nothing { inserts_text self.old (pasted_symbols (chars text.now)) ≡ false → IsOk
            result }
    {
        if !has_pasted_text(text) {
            return self.insert_nothing();
        }
        let unified = unify_line_ends(self.allocator(), text)?;
        self.insert_str_unguarded(unified.as_str())
    }

    /// Inserts the yanked text where `insert_str` inserts, and returns whether it inserted a symbol.
    pub fn paste(&mut self) -> Result<bool, AllocError>
        ensures inserted { IfOk result (λ inserted. inserted ≡ (is_editable self.old && has_symbols
            (admitted_over_selection self.old self.old.yank))) }
        ensures ok { OnOk result (self.new ≡ unless_read_only self.old (settled Forward (str_inserted
            self.old (admitted_over_selection self.old self.old.yank)))) }
        ensures err { OnErr result (IsInsertOutOfMemory self.old self.new) }
        ensures nothing { (is_editable self.old && inserts_text self.old self.old.yank) ≡ false →
            IsOk result }
    {
        if self.read_only() {
            return Ok(false);
        }
        self.paste_unguarded()
    }

    // The same, whether a guard leaves it out or not.
    fn paste_unguarded(&mut self) -> Result<bool, AllocError>
        ensures inserted { IfOk result (λ inserted. inserted ≡ has_symbols
            (admitted_over_selection self.old self.old.yank)) }
        ensures ok { OnOk result (self.new ≡ settled Forward (str_inserted
            self.old (admitted_over_selection self.old self.old.yank))) }
        ensures err { OnErr result (IsInsertOutOfMemory self.old self.new) }
        ensures nothing { inserts_text self.old self.old.yank ≡ false → IsOk result }
    {
        if !has_symbol(self.yank.as_slice()) {
            self.insert_nothing()?;
            return Ok(false);
        }
        let fragment_lines = self.admitted(self.yank.clone()?)?;
        self.insert_over_selection(fragment_lines)
    }

    // Replaces the selected text by what fits of a fragment, and returns whether that has a symbol.
    fn insert_over_selection(
        &mut self,
        fragment_lines: Arc<Vec<String>>,
    ) -> Result<bool, AllocError>
        ensures inserted { IfOk result (λ inserted. inserted ≡ has_symbols
            (fitting_selection self.old (text_of (arc_value fragment_lines).items))) }
        ensures ok { OnOk result (self.new ≡ settled Forward (str_inserted self.old
            (fitting_selection self.old (text_of (arc_value fragment_lines).items)))) }
        ensures err { OnErr result (IsInsertOutOfMemory self.old self.new) }
    {
        let opens = self.begin_call();
        let inserted = self.replace_by_fragment(fragment_lines);
        self.end_call(opens);
        inserted
    }

    // The same, without a group of its own.
    fn replace_by_fragment(&mut self, fragment_lines: Arc<Vec<String>>) -> Result<bool, AllocError>
        ensures inserted { IfOk result (λ inserted. inserted ≡ has_symbols
            (fitting_selection self.old (text_of (arc_value fragment_lines).items))) }
        ensures ok { OnOk result (self.new ≡ settled Forward (symbols_or_none_inserted
            (unselected self.old)
            (fitting_selection self.old (text_of (arc_value fragment_lines).items)))) }
        ensures err { OnErr result (IsInsertOutOfMemory self.old self.new) }
    {
        self.document.remove_selection(self.time)?;
        let inserted = self.insert_fitting(fragment_lines);
        self.settle(AtomicCursorBias::Forward);
        inserted
    }

    // Inserts what fits of a fragment, and returns whether that has a symbol.
    fn insert_fitting(&mut self, fragment_lines: Arc<Vec<String>>) -> Result<bool, AllocError>
        ensures inserted { IfOk result (λ inserted. inserted ≡ has_symbols (fitting_beside
            self.old.settings.max_chars (length self.old.document.text)
            (text_of (arc_value fragment_lines).items))) }
        ensures ok { OnOk result (self.new ≡ symbols_or_none_inserted self.old (fitting_beside
            self.old.settings.max_chars (length self.old.document.text)
            (text_of (arc_value fragment_lines).items))) }
        ensures err { OnErr result (self.new ≡ self.old) }
    {
        let fitting = self.fitting_fragment(fragment_lines)?;
        self.document.insert(fitting, self.time)
    }

    // Returns what fits of the fragment into the text as it is.
    fn fitting_fragment(
        &self,
        fragment_lines: Arc<Vec<String>>,
    ) -> Result<Arc<Vec<String>>, AllocError>
        ensures { IfOk result (λ fitting. text_of (arc_value fitting).items ≡ fitting_beside
            self.now.settings.max_chars (length self.now.document.text)
            (text_of (arc_value fragment_lines).items)) }
    {
        if self.settings.max_chars.is_none() {
            return Ok(fragment_lines);
        }
        self.fitting(fragment_lines, self.symbol_count())
    }

    /// Inserts the cursor's line once more below it, or the lines of the selection below the last of
    /// them, as one edit: those of which the selection holds a character or the break. Cursor and
    /// selection move down into the copy, and keep their columns; a run of typing ends. Atomic
    /// ranges stay with the first lines, and the copy has none. What was yanked stays. After it the
    /// lines are those up to the last of these lines, and then those from the first of them on.
    pub fn duplicate_line(&mut self) -> Result<(), AllocError>
        ensures ok { OnOk result (self.new ≡ (if bars_duplicate self.old then self.old else
            settled Forward (with_document self.old
            (lines_duplicated self.old.document self.old.time)))) }
        ensures err { OnErr result (self.new ≡ self.old) }
        ensures lines { OnOk result (lines self.new.document.text ≡ (if bars_duplicate self.old
            then lines self.old.document.text else with_lines_again (lines self.old.document.text)
            (first_selected_row self.old.document) (last_selected_row self.old.document))) }
        ensures nothing { bars_duplicate self.old ≡ true → IsOk result }
    {
        if self.bars_duplicate() {
            return Ok(());
        }
        self.duplicate_line_unguarded()?;
        self.settle(AtomicCursorBias::Forward);
        Ok(())
    }

    // The same, whether a guard leaves it out or not.
    fn duplicate_line_unguarded(&mut self) -> Result<(), AllocError>
        ensures ok { OnOk result (self.new
            ≡ with_document self.old (lines_duplicated self.old.document self.old.time)) }
        ensures err { OnErr result (self.new ≡ self.old) }
        ensures lines { OnOk result (lines self.new.document.text
            ≡ with_lines_again (lines self.old.document.text)
            (first_selected_row self.old.document) (last_selected_row self.old.document)) }
    {
        self.document.duplicate_lines(self.time)
    }

    /// Inserts a tab at the cursor, or at the end of the atomic range that strictly contains it,
    /// and returns whether it inserted something or removed a selection. With hard tabs that is a
    /// tab character, as typed, otherwise spaces up to the next tab stop; at tab length 0 nothing.
    pub fn insert_tab(&mut self) -> Result<bool, AllocError>
        ensures inserted { IfOk result
            (λ inserted. inserted ≡ (not (bars_tab self.old) && inserts_tab self.old)) }
        ensures ok { OnOk result
            (self.new ≡ (if bars_tab self.old then self.old else settled Forward
            (tab_inserted self.old))) }
        ensures err { OnErr result (IsInsertOutOfMemory self.old self.new) }
        ensures nothing { (not (bars_tab self.old) && inserts_tab self.old) ≡ false → IsOk result }
    {
        if self.bars_tab() {
            return Ok(false);
        }
        self.insert_tab_unguarded()
    }

    // The same, whether a guard leaves it out or not.
    fn insert_tab_unguarded(&mut self) -> Result<bool, AllocError>
        ensures inserted { IfOk result (λ inserted. inserted ≡ inserts_tab self.old) }
        ensures ok { OnOk result (self.new ≡ settled Forward (tab_inserted self.old)) }
        ensures err { OnErr result (IsInsertOutOfMemory self.old self.new) }
        ensures nothing { inserts_tab self.old ≡ false → IsOk result }
    {
        let tab_length = self.document.layout_settings().tab_len;
        if tab_length == 0 {
            return self.drop_selection();
        }
        let opens = self.begin_call();
        let inserted = self.replace_by_tab(tab_length);
        self.end_call(opens);
        inserted
    }

    // Replaces the selected text by a tab of this length, and returns true.
    fn replace_by_tab(&mut self, tab_length: u8) -> Result<bool, AllocError>
        requires some { 0 < tab_length }
        ensures inserted { IfOk result (λ inserted. inserted ≡ true) }
        ensures ok { OnOk result
            (self.new ≡ settled Forward
            (tab_or_spaces_inserted (unselected self.old) tab_length)) }
        ensures err { OnErr result (IsInsertOutOfMemory self.old self.new) }
    {
        self.put_tab(tab_length)?;
        Ok(true)
    }

    fn put_tab(&mut self, tab_length: u8) -> Result<(), AllocError>
        requires some { 0 < tab_length }
        ensures ok { OnOk result
            (self.new ≡ settled Forward
            (tab_or_spaces_inserted (unselected self.old) tab_length)) }
        ensures err { OnErr result (IsInsertOutOfMemory self.old self.new) }
    {
        self.document.remove_selection(self.time)?;
        let inserted = self.insert_tab_or_spaces(tab_length);
        self.settle(AtomicCursorBias::Forward);
        inserted
    }

    // Inserts a tab of this length at the insertion position.
    fn insert_tab_or_spaces(&mut self, tab_length: u8) -> Result<(), AllocError>
        requires some { 0 < tab_length }
        ensures ok { OnOk result (self.new ≡ tab_or_spaces_inserted self.old tab_length) }
        ensures err { OnErr result (self.new ≡ self.old) }
    {
        if self.settings.hard_tab_indent {
            return self
                .document
                .insert_character('\t', self.settings.undo_coalescing, self.time);
        }
        self.insert_spaces(tab_length)
    }

    // Inserts spaces from the insertion position up to the next tab stop, as many as fit.
    fn insert_spaces(&mut self, tab_length: u8) -> Result<(), AllocError>
        requires some { 0 < tab_length }
        ensures ok { OnOk result
            (self.new ≡ symbols_or_none_inserted self.old (fitting_spaces self.old tab_length)) }
        ensures err { OnErr result (self.new ≡ self.old) }
    {
        let (row, column) = self.document.insertion_place();
        let line = self.document.lines()[row].as_str();
        let count = self.fitting_count(spaces_to_stop(line, column, tab_length));
        let fragment_lines = spaces_as_fragment(self.allocator(), count)?;
        self.document.insert(fragment_lines, self.time)?;
        Ok(())
    }

    // Removes the selected text, returns whether there was any, drops the selection, and moves the
    // cursor to the insertion position.
    fn insert_nothing(&mut self) -> Result<bool, AllocError>
        ensures removed { IfOk result (λ removed. removed ≡ is_selected self.old.document) }
        ensures ok { OnOk result (self.new ≡ settled Forward (str_inserted self.old [])) }
        ensures err { OnErr result (self.new ≡ self.old) }
        ensures nothing { is_selected self.old.document ≡ false → IsOk result }
    {
        let removed = self.document.remove_selection(self.time)?;
        self.document.insert_nothing();
        self.settle(AtomicCursorBias::Forward);
        Ok(removed)
    }

    // Removes the selected text, returns whether there was any, and drops the selection.
    fn drop_selection(&mut self) -> Result<bool, AllocError>
        ensures removed { IfOk result (λ removed. removed ≡ is_selected self.old.document) }
        ensures ok { OnOk result
            (self.new ≡ settled Forward (selection_cancelled (unselected self.old))) }
        ensures err { OnErr result (self.new ≡ self.old) }
        ensures nothing { is_selected self.old.document ≡ false → IsOk result }
    {
        let removed = self.document.remove_selection(self.time)?;
        self.document.set_anchor(None);
        self.settle(AtomicCursorBias::Forward);
        Ok(removed)
    }
}

fn has_text(text: &str) -> bool
    ensures { result ≡ has_symbols (fragment_symbols (chars text.now)) }
{
    !text.is_empty()
}

fn has_pasted_text(text: &str) -> bool
    ensures { result ≡ has_symbols (pasted_symbols (chars text.now)) }
{
    !text.is_empty()
}

// Returns a fragment of one line, of `count` spaces.
fn spaces_as_fragment(alloc: Global, count: u8) -> Result<Arc<Vec<String>>, AllocError>
    ensures { IfOk result (λ fragment_lines.
        text_of (arc_value fragment_lines).items ≡ replicate count (Character 32)) }
{
    let mut fragment_lines = Vec::new(alloc);
    fragment_lines.push(String::from_str(alloc, spaces(count))?)?;
    Ok(Arc::new(alloc, fragment_lines)?)
}
