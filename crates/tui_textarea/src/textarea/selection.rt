//! The selection, copying and cutting.
ghost use Rattle.std.specs.Prelude.{◌≡◌, OnOk, OnErr, IsOk, IfOk, IfSome, false, is_some, string_bytes, if◌then◌else◌};
ghost use Rattle.std.specs.Str.{chars};
ghost use Rattle.textarea_data.specs.declared.range.AtomicCursorBias.TheVariants.{Forward};
ghost use Rattle.tui_textarea.specs.Prelude.{IsPlace, is_selected, selection, fragment_symbols, fragment_text, all_selected, selection_copied, selection_cut, selection_cancelled, selection_started, settled};

use crate::textarea::TextArea;
use std::alloc::AllocError;
use std::sync::Arc;
use textarea_data::range::AtomicCursorBias;
use textarea_text::fragment::{fragment_of, join_with_line_feeds};
use textarea_text::places::text_end;
use textarea_text::text_slice::between;

impl TextArea<'_> {
    /// Begins an empty selection at the cursor.
    pub fn start_selection(&mut self)
        ensures { self.new ≡ selection_started self.old }
    {
        self.document.set_anchor(Some(self.document.cursor()));
    }

    /// Drops the selection, if there is one; the text stays.
    pub fn cancel_selection(&mut self)
        ensures { self.new ≡ selection_cancelled self.old }
    {
        self.document.set_anchor(None);
    }

    /// Selects the whole text, and moves the cursor to its end.
    pub fn select_all(&mut self)
        ensures { self.new ≡ settled Forward (all_selected self.old) }
    {
        let end = text_end(self.document.lines());
        self.document.move_to(end, Some((0, 0)));
        self.settle(AtomicCursorBias::Forward);
    }

    /// Returns whether a selection is open, even an empty one.
    pub fn is_selecting(&self) -> bool
        ensures { result ≡ is_some self.now.document.anchor }
    {
        self.document.anchor().is_some()
    }

    /// Returns the two ends of the selection, the first one first, even if it is empty.
    pub fn selection_range(&self) -> Option<((usize, usize), (usize, usize))>
        ensures value { result ≡ selection self.now.document }
        ensures places { IfSome result (λ ends. IsPlace self.now.document.text ends.0
            × IsPlace self.now.document.text ends.1) }
    {
        self.document.selection()
    }

    /// Yanks the selected text, if there is any, and drops the selection.
    pub fn copy(&mut self) -> Result<(), AllocError>
        ensures ok { OnOk result (self.new ≡ selection_copied self.old) }
        ensures err { OnErr result (self.new ≡ self.old) }
        ensures nothing { is_selected self.old.document ≡ false → IsOk result }
    {
        self.copy_selected()?;
        Ok(())
    }

    // The same, and returns whether there was any.
    fn copy_selected(&mut self) -> Result<bool, AllocError>
        ensures copied { IfOk result (λ copied. copied ≡ is_selected self.old.document) }
        ensures ok { OnOk result (self.new ≡ selection_copied self.old) }
        ensures err { OnErr result (self.new ≡ self.old) }
        ensures nothing { is_selected self.old.document ≡ false → IsOk result }
    {
        let Some((start, end)) = self.document.filled_selection() else {
            self.document.set_anchor(None);
            return Ok(false);
        };
        let copied = between(self.allocator(), self.document.lines(), start, end)?;
        self.yank = Arc::new(self.allocator(), copied)?;
        self.document.set_anchor(None);
        Ok(true)
    }

    /// Yanks and removes the selected text, returns whether there was any, and drops the selection.
    /// A text area that is read only keeps the text.
    pub fn cut(&mut self) -> Result<bool, AllocError>
        ensures removed { IfOk result (λ removed. removed ≡ is_selected self.old.document) }
        ensures ok { OnOk result (self.new ≡ (if self.old.settings.read_only then selection_copied
            self.old else settled Forward (selection_cut self.old))) }
        ensures err { OnErr result (self.new ≡ self.old) }
        ensures nothing { is_selected self.old.document ≡ false → IsOk result }
    {
        if self.read_only() {
            return self.copy_selected();
        }
        let removed = self.cut_unguarded()?;
        self.settle(AtomicCursorBias::Forward);
        Ok(removed)
    }

    // The same, whether the text area is read only or not.
    fn cut_unguarded(&mut self) -> Result<bool, AllocError>
        ensures removed { IfOk result (λ removed. removed ≡ is_selected self.old.document) }
        ensures ok { OnOk result (self.new ≡ selection_cut self.old) }
        ensures err { OnErr result (self.new ≡ self.old) }
        ensures nothing { is_selected self.old.document ≡ false → IsOk result }
    {
        let Some(fragment_lines) = self.document.take_selection(self.time)? else {
            self.document.set_anchor(None);
            return Ok(false);
        };
        self.yank = fragment_lines;
        Ok(true)
    }

    /// Returns the text that was yanked last, with a line feed for each line break; empty at first.
    pub fn yank_text(&self) -> Result<String, AllocError>
        ensures { IfOk result (λ text. chars (string_bytes text) ≡ fragment_text self.now.yank) }
    {
        join_with_line_feeds(self.allocator(), self.yank.as_slice())
    }

    /// Sets the text that `paste` inserts. Each line feed becomes a line break; a carriage return
    /// directly before it is dropped.
    pub fn set_yank_text(&mut self, text: &str) -> Result<(), AllocError>
        ensures ok { OnOk result
            (self.new ≡ record self.old { yank = fragment_symbols (chars text.now) }) }
        ensures err { OnErr result (self.new ≡ self.old) }
    {
        let fragment_lines = fragment_of(self.allocator(), text)?;
        self.yank = Arc::new(self.allocator(), fragment_lines)?;
        Ok(())
    }
}
