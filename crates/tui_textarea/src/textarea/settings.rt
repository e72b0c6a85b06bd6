//! The settings.
ghost use Rattle.std.specs.Prelude.{◌≡◌, ◌<◌, ◌≤◌, ◌+◌, length, [], ◌∷◌};
ghost use Rattle.std.specs.Duration.{as_nanos};
ghost use Rattle.tui_textarea.specs.Prelude.{history_forgotten, run_ended, default_settings, with_document, indent_of};

use crate::textarea::TextArea;
use std::time::Duration;
use textarea_data::cursor::CursorUnit;
use textarea_text::util::spaces;

/// The settings of a text area.
#[derive(Clone, Copy, Debug, PartialEq, Eq)]
pub struct Settings {
    /// Whether a tab is inserted as a tab character, and not as spaces.
    pub hard_tab_indent: bool,
    /// Whether typed edits join into one edit, which is undone at once.
    pub undo_coalescing: bool,
    /// Whether all edits of one call are one group, which is undone at once.
    pub undo_grouping: bool,
    /// Whether no call but `set_lines` changes the text.
    pub read_only: bool,
    /// Whether the text is kept in a single line.
    pub single_line: bool,
    /// The greatest number of symbols of the text, if there is one.
    pub max_chars: Option<usize>,
    /// Whether the cursor goes by characters or by grapheme clusters.
    pub cursor_unit: CursorUnit,
}

impl Default for Settings {
    /// Tabs as spaces, typed edits do not join, no edits are grouped, the text can be edited and have
    /// several lines and any number of characters, and the cursor goes by characters.
    fn default() -> Settings
        ensures { result ≡ default_settings }
    {
        Settings {
            hard_tab_indent: false,
            undo_coalescing: false,
            undo_grouping: false,
            read_only: false,
            single_line: false,
            max_chars: None,
            cursor_unit: CursorUnit::Character,
        }
    }
}

impl TextArea<'_> {
    /// Sets whether a tab is inserted as a tab character, and not as spaces.
    pub fn set_hard_tab_indent(&mut self, hard_tab_indent: bool)
        ensures { self.new
            ≡ record self.old
            { settings = record self.old.settings { hard_tab_indent = hard_tab_indent } } }
    {
        self.settings.hard_tab_indent = hard_tab_indent;
    }

    /// Returns whether a tab is inserted as a tab character.
    pub fn hard_tab_indent(&self) -> bool
        ensures { result ≡ self.now.settings.hard_tab_indent }
    {
        self.settings.hard_tab_indent
    }

    /// Returns a tab at a line's start: a tab character, or a space for each column of its length.
    pub fn indent(&self) -> &'static str
        ensures { result.now ≡ indent_of self.now }
    {
        if self.settings.hard_tab_indent {
            "\t"
        } else {
            spaces(self.document.layout_settings().tab_len)
        }
    }

    /// Sets whether typed edits join into one edit, which is undone at once. A run of typing ends.
    pub fn set_undo_coalescing(&mut self, undo_coalescing: bool)
        ensures { self.new ≡ record self.old {
          document = record self.old.document { log = run_ended self.old.document.log };
          settings = record self.old.settings { undo_coalescing = undo_coalescing };
        } }
    {
        self.settings.undo_coalescing = undo_coalescing;
        self.document.break_run();
    }

    /// Returns whether typed edits join into one.
    pub fn undo_coalescing(&self) -> bool
        ensures { result ≡ self.now.settings.undo_coalescing }
    {
        self.settings.undo_coalescing
    }

    /// Forgets all edits, with the ranges before them, and remembers at most this number from now on,
    /// done and undone together.
    pub fn set_max_histories(&mut self, max_histories: usize)
        ensures { self.new
            ≡ with_document self.old (history_forgotten self.old.document max_histories) }
    {
        self.document.set_max_histories(max_histories);
    }

    /// Returns the greatest number of edits that are remembered, done and undone together.
    pub fn max_histories(&self) -> usize
        ensures value { result ≡ self.now.document.log.maximum }
        ensures bound { length self.now.document.log.done + length self.now.document.log.undone
            ≤ result }
    {
        self.document.max_histories()
    }

    /// Sets the time of the edits that follow, counted from any fixed time. A time before the last
    /// edit's counts as no pause.
    pub fn set_now(&mut self, now: Duration)
        ensures { self.new ≡ record self.old { time = as_nanos now } }
    {
        self.time = now;
    }
}
