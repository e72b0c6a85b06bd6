//! The text area: a document, the yanked text, the settings, the clock, a search pattern, a
//! surround, and the state of drawing.
mod changes;
mod constructors;
mod edits;
mod grouping;
mod guards;
mod indenting;
mod input;
pub(crate) mod laws;
mod layout;
mod look;
mod measure;
mod moves;
mod moving;
mod past;
mod ranges;
mod removals;
mod render;
mod replacing;
mod search;
mod selection;
pub mod settings;
mod styles;
mod surround;
mod units;

ghost use Rattle.std.specs.Prelude.{◌≡◌, ◌<◌, ◌≤◌, ◌↔◌, length, OnErr, OnOk, IfOk, IsOk, true, IsTrue, [], string_bytes, vec_len};
ghost use Rattle.std.specs.Arc.{arc_value};
ghost use Rattle.std.specs.Str.{chars};
ghost use Rattle.tui_textarea.specs.Prelude.{fragment_text, size_limit, lines, lines_of, text_of, IsPlace, size_of, changes_taken, new_state, other_lines_set, bars_lines};

use crate::drawing::Drawing;
use crate::textarea::settings::Settings;
use std::alloc::{AllocError, Global};
use std::marker::Model;
use std::sync::Arc;
use std::time::Duration;
use textarea_data::range::AtomicCursorBias;
use textarea_document::Document;
use textarea_lines::settings::LayoutSettings;
use textarea_search::search::Search;
use textarea_text::fragment::join_with_line_feeds;
use textarea_view::surround::Surround;
use textarea_wrap::wrap::WrapMode;

const DEFAULT_MAX_HISTORIES: usize = 50;

/// The layout of a new text area: one visual row per line, and no area drawn yet.
const DEFAULT_LAYOUT: LayoutSettings = LayoutSettings {
    mode: WrapMode::None,
    tab_len: 4,
    line_numbers: false,
    inner_width: 0,
};

/// A multi-line text editor: lines with a cursor, a selection, a yanked text and an undo history;
/// settings; a search pattern; a block, a placeholder and height limits around it; and its styles
/// and viewport.
///
/// Rows and columns count from 0, columns in characters. A call that runs out of memory leaves the
/// text area unchanged; only an insertion may have removed the selected text.
#[derive(Drop)]
pub struct TextArea<'a> {
    document: Document,
    yank: Arc<Vec<String>>,
    settings: Settings,
    time: Duration,
    search: Search,
    surround: Surround<'a>,
    drawing: Drawing,
}

impl<'a> Model for TextArea<'a> {
    ghost use Rattle.std.specs.Arc.{arc_value};
    ghost use Rattle.std.specs.Duration.{as_nanos};
    ghost use Rattle.textarea_text.specs.Text.{text_of};
    ghost use Rattle.tui_textarea.specs.State.{State};

    ghost Value = { State };

    ghost view = { λ area. record {
      document = area.document;
      yank = text_of (arc_value area.yank).items;
      settings = area.settings;
      time = as_nanos area.time;
      pattern = area.search;
      surround = area.surround;
      drawing = area.drawing;
    } };
}

impl<'a> Clone for TextArea<'a> {
    ghost use Rattle.tui_textarea.specs.State.{with_changes_taken};

    ghost is_clone = { λ area copy. copy ≡ with_changes_taken area };

    /// Returns a copy of the text area with its history and an empty log of changes, or an error if
    /// memory runs out.
    fn clone(&self) -> Result<TextArea<'a>, AllocError> {
        let (search, surround, drawing) = self.clone_look()?;
        let (document, yank) = self.clone_text()?;
        Ok(TextArea {
            document,
            yank,
            settings: self.settings,
            time: self.time,
            search,
            surround,
            drawing,
        })
    }
}

impl<'a> TextArea<'a> {
    // Returns a copy of the document, and the yanked text, which is shared.
    fn clone_text(&self) -> Result<(Document, Arc<Vec<String>>), AllocError>
        ensures document { IfOk result (λ copies. copies.0 ≡ changes_taken self.now.document) }
        ensures yank { IfOk result (λ copies.
            text_of (arc_value copies.1).items ≡ self.now.yank) }
    {
        let yank = self.yank.clone()?;
        Ok((self.document.clone()?, yank))
    }

    // Returns copies of the search pattern, of the surround, and of the state of drawing.
    fn clone_look(&self) -> Result<(Search, Surround<'a>, Drawing), AllocError>
        ensures pattern { IfOk result (λ copies. copies.0 ≡ self.now.pattern) }
        ensures surround { IfOk result (λ copies. copies.1 ≡ self.now.surround) }
        ensures drawing { IfOk result (λ copies. copies.2 ≡ self.now.drawing) }
    {
        let search = self.search.clone()?;
        let surround = self.surround.clone()?;
        Ok((search, surround, self.drawing.clone()?))
    }

    /// Returns a text area with these lines and the cursor at the start. An empty list becomes one
    /// empty line. A line feed inside a line stays a character of that line.
    pub fn new(lines: Vec<String>) -> Result<Self, AllocError>
        ensures { IfOk result (λ area. area ≡ new_state (text_of lines.items)) }
    {
        let alloc = *lines.allocator();
        let document = Document::new(alloc, lines, DEFAULT_LAYOUT, DEFAULT_MAX_HISTORIES)?;
        let nothing = Vec::new(alloc);
        let yank = Arc::new(alloc, nothing)?;
        let settings = Settings::default();
        let search = Search::default();
        let surround = Surround::new(alloc);
        let drawing = Drawing::new(alloc);
        Ok(TextArea {
            document,
            yank,
            settings,
            time: Duration::ZERO,
            search,
            surround,
            drawing,
        })
    }

    /// Returns an empty text area, with one empty line.
    pub fn try_default(alloc: Global) -> Result<Self, AllocError>
        ensures { IfOk result (λ area. area ≡ new_state []) }
    {
        let lines = Vec::new(alloc);
        TextArea::new(lines)
    }

    /// Replaces all lines, and moves the cursor to the position in them that is nearest to
    /// `cursor`. Forgets all edits, the selection, the atomic ranges and the custom highlights, and
    /// resets the viewport's numbers to 0. Settings, search pattern, yanked text, the last area and
    /// the caret stay. A line feed inside a line stays a character of that line. A log of changes
    /// gets a change of the whole text. A text area of a single line takes no more than one: several
    /// change nothing.
    pub fn set_lines(
        &mut self,
        lines: Vec<String>,
        cursor: (usize, usize),
    ) -> Result<(), AllocError>
        requires some { 0 < vec_len lines }
        ensures ok { OnOk result
            (self.new ≡ other_lines_set self.old (lines_of lines.items) cursor) }
        ensures err { OnErr result (self.new ≡ self.old) }
        ensures nothing { bars_lines self.old (lines_of lines.items) ≡ true → IsOk result }
    {
        if self.bars_lines(lines.as_slice()) {
            return Ok(());
        }
        self.document.set_lines(lines, cursor)?;
        self.drawing.forget_lines();
        self.settle(AtomicCursorBias::Forward);
        Ok(())
    }

    /// Returns the lines, at least one. Their bytes and their number together are at most 2^48.
    pub fn lines(&self) -> &[String]
        ensures lines { lines_of result.now ≡ lines self.now.document.text }
        ensures some { 0 < length result.now }
        ensures limit { size_of result.now ≤ size_limit }
    {
        self.document.lines()
    }

    /// Returns the text: the lines, with a line feed between two.
    pub fn text(&self) -> Result<String, AllocError>
        ensures { IfOk result
            (λ text. chars (string_bytes text) ≡ fragment_text self.now.document.text) }
    {
        join_with_line_feeds(self.allocator(), self.lines())
    }

    /// Drops everything but the lines, and returns these.
    pub fn into_lines(self) -> Vec<String>
        ensures lines { text_of result.items ≡ self.entry.document.text }
        ensures some { 0 < vec_len result }
    {
        let TextArea { document, .. } = self;
        document.into_lines()
    }

    /// Returns the cursor's (row, column), which is always a position of the text.
    pub fn cursor(&self) -> (usize, usize)
        ensures value { result ≡ self.now.document.cursor }
        ensures place { IsPlace self.now.document.text result }
    {
        self.document.cursor()
    }

    /// Returns whether the text is one empty line.
    pub fn is_empty(&self) -> bool
        ensures { IsTrue result ↔ (self.now.document.text ≡ []) }
    {
        self.document.is_empty()
    }

    /// Returns the allocator of all memory of the text area.
    pub fn allocator(&self) -> Global {
        self.document.allocator()
    }
}
