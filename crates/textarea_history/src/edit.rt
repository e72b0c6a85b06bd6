//! Edits of lines, each between two positions, and the changes that make or undo them.
mod change;
mod copied;
mod fragment;
mod grouped;
mod run;

ghost use Rattle.std.specs.Prelude.{◌≡◌, ◌<◌, ◌∷◌, [], IsOk, None, OnOk, OnErr, vec_len, true, false};
ghost use Rattle.textarea_history.specs.Prelude.{inverse, place_after, place_before, FitsLines, IsRemovalInLine, MakesLines, symbol_in, inserts_of, line_count_in, line_count_of, symbols_in, symbols_of};

pub use change::Change;
use std::alloc::AllocError;
use std::marker::Model;
use std::sync::Arc;
use textarea_text::util::Pos;

/// What an edit inserts or removes: a character, a line break, a text within a line, or a fragment
/// of at least two lines.
#[derive(Drop)]
pub enum EditKind {
    InsertChar(char),
    DeleteChar(char),
    InsertNewline,
    DeleteNewline,
    InsertStr(String),
    DeleteStr(String),
    InsertChunk(Vec<String>),
    DeleteChunk(Vec<String>),
}

impl Clone for EditKind {
    ghost use Rattle.textarea_history.specs.Edit.{IsCopyOfKind};

    ghost is_clone = { λ kind copy. IsCopyOfKind kind copy };

    /// Returns a copy, or out of memory.
    fn clone(&self) -> Result<EditKind, AllocError> {
        match self {
            EditKind::InsertChar(c) => Ok(EditKind::InsertChar(*c)),
            EditKind::DeleteChar(c) => Ok(EditKind::DeleteChar(*c)),
            EditKind::InsertNewline => Ok(EditKind::InsertNewline),
            EditKind::DeleteNewline => Ok(EditKind::DeleteNewline),
            EditKind::InsertStr(s) => Ok(EditKind::InsertStr(s.clone()?)),
            EditKind::DeleteStr(s) => Ok(EditKind::DeleteStr(s.clone()?)),
            EditKind::InsertChunk(lines) => Ok(EditKind::InsertChunk(lines.clone()?)),
            EditKind::DeleteChunk(lines) => Ok(EditKind::DeleteChunk(lines.clone()?)),
        }
    }
}

/// Returns the kind of edit that removes a character or, for `None`, a line break.
pub fn deletion_of(character: Option<char>) -> EditKind
    ensures symbols { symbols_of result ≡ symbol_in character ∷ [] }
    ensures inserts { inserts_of result ≡ false }
    ensures fragment_lines { line_count_of result ≡ None }
{
    match character {
        Some(c) => EditKind::DeleteChar(c),
        None => EditKind::DeleteNewline,
    }
}

/// What an edit inserts or removes. `Typed` has the characters in the order of typing, which for
/// Backspace is the reverse of the text's, so that a run of either direction grows at the end. The
/// lines of a fragment are the edit's own, or `Shared` by the yank and other edits.
#[derive(Drop)]
enum Content {
    Character(char),
    Text(String),
    Typed(String),
    Break,
    Lines(Vec<String>),
    Shared(Arc<Vec<String>>),
}

impl Clone for Content {
    ghost use Rattle.textarea_history.specs.Edit.{IsCopyOfContent};

    ghost is_clone = { λ stored_content copy. IsCopyOfContent stored_content copy };

    fn clone(&self) -> Result<Content, AllocError> {
        match self {
            Content::Character(c) => Ok(Content::Character(*c)),
            Content::Text(text) => Ok(Content::Text(text.clone()?)),
            Content::Typed(text) => Ok(Content::Typed(text.clone()?)),
            Content::Break => Ok(Content::Break),
            Content::Lines(lines) => Ok(Content::Lines(lines.clone()?)),
            Content::Shared(lines) => Ok(Content::Shared(lines.clone()?)),
        }
    }
}

// What an edit of the kind inserts or removes, and whether it inserts it.
fn content_of(kind: EditKind) -> (Content, bool)
    ensures symbols { symbols_in result.1 result.0 ≡ symbols_of kind }
    ensures inserts { result.1 ≡ inserts_of kind }
    ensures fragment_lines { line_count_in result.0 ≡ line_count_of kind }
{
    match kind {
        EditKind::InsertChar(c) => (Content::Character(c), true),
        EditKind::DeleteChar(c) => (Content::Character(c), false),
        EditKind::InsertNewline => (Content::Break, true),
        EditKind::DeleteNewline => (Content::Break, false),
        EditKind::InsertStr(s) => (Content::Text(s), true),
        EditKind::DeleteStr(s) => (Content::Text(s), false),
        EditKind::InsertChunk(lines) => (Content::Lines(lines), true),
        EditKind::DeleteChunk(lines) => (Content::Lines(lines), false),
    }
}

/// One edit. Its content is between the start and the end, after an insertion or before a removal.
/// In a history, `grouped` marks an edit that is in one group with the edit before it.
#[derive(Drop)]
pub struct Edit {
    content: Content,
    inserts: bool,
    start: (usize, usize),
    end: (usize, usize),
    grouped: bool,
}

impl Model for Edit {
    ghost use Rattle.textarea_history.specs.Edit.{Stored};

    ghost Value = { Stored };

    ghost use Rattle.textarea_history.specs.Edit.{stored_of};

    ghost view = { λ edit.
        stored_of edit.content edit.inserts edit.start edit.end edit.grouped };
}

impl Clone for Edit {
    ghost use Rattle.textarea_history.specs.Edit.{IsCopyOfEdit};

    ghost is_clone = { λ edit copy. IsCopyOfEdit edit copy };

    /// Returns a copy, or out of memory.
    fn clone(&self) -> Result<Edit, AllocError> {
        Ok(Edit {
            content: self.content.clone()?,
            inserts: self.inserts,
            start: self.start,
            end: self.end,
            grouped: self.grouped,
        })
    }
}

impl Edit {
    ghost use Rattle.textarea_history.specs.Edit.{IsWellFormed, after_of, before_of, line_count_of, splice_of, end_of_kind};

    /// Creates an edit from the cursor's positions before and after it. Ignores their byte offsets.
    pub fn new(kind: EditKind, before: Pos, after: Pos) -> Self
        ensures splice { result.splice
            ≡ splice_of kind (before.row, before.col) (after.row, after.col) }
        ensures end { result.end
            ≡ end_of_kind kind (before.row, before.col) (after.row, after.col) }
        ensures fragment_lines { result.fragment_lines ≡ line_count_of kind }
    {
        Edit::between(kind, (before.row, before.col), (after.row, after.col))
    }

    /// Creates an edit from the cursor's positions, as (row, column), before and after it.
    pub fn between(kind: EditKind, before: (usize, usize), after: (usize, usize)) -> Self
        ensures splice { result.splice ≡ splice_of kind before after }
        ensures end { result.end ≡ end_of_kind kind before after }
        ensures fragment_lines { result.fragment_lines ≡ line_count_of kind }
    {
        let (content, inserts) = content_of(kind);
        let (start, end) = if inserts {
            (before, after)
        } else {
            (after, before)
        };
        Edit {
            content,
            inserts,
            start,
            end,
            grouped: false,
        }
    }

    /// Returns the cursor's (row, column) before the edit.
    pub fn cursor_before(&self) -> (usize, usize)
        ensures place { result ≡ before_of self.now }
        ensures end { IsWellFormed self.now → result ≡ place_before self.now.splice }
    {
        if self.inserts { self.start } else { self.end }
    }

    /// Returns the cursor's (row, column) after the edit.
    pub fn cursor_after(&self) -> (usize, usize)
        ensures place { result ≡ after_of self.now }
        ensures end { IsWellFormed self.now → result ≡ place_after self.now.splice }
    {
        if self.inserts { self.end } else { self.start }
    }

    /// Returns the change that makes the edit, or redoes it.
    pub fn change(&self) -> Change<'_>
        requires { IsWellFormed self.now }
        ensures { result ≡ self.now.splice }
    {
        Change {
            edit: self,
            inserts: self.inserts,
        }
    }

    /// Returns the change that undoes the edit.
    pub fn inverse(&self) -> Change<'_>
        requires { IsWellFormed self.now }
        ensures { result ≡ inverse self.now.splice }
    {
        Change {
            edit: self,
            inserts: !self.inserts,
        }
    }

    /// Makes the edit on lines that it fits. Out of memory leaves them unchanged.
    pub fn redo(&self, lines: &mut Vec<String>) -> Result<(), AllocError>
        requires well_formed { IsWellFormed self.now }
        requires fits { FitsLines lines.old.items self.now.splice }
        ensures ok { OnOk result (MakesLines self.now.splice lines.old.items lines.new.items) }
        ensures err { OnErr result (lines.new.items ≡ lines.old.items) }
        ensures nonempty { 0 < vec_len lines.new }
        ensures no_memory { IsRemovalInLine self.now.splice → IsOk result }
    {
        self.change().apply(lines)
    }

    /// Undoes the edit on lines that its inverse fits. Out of memory leaves them unchanged.
    pub fn undo(&self, lines: &mut Vec<String>) -> Result<(), AllocError>
        requires well_formed { IsWellFormed self.now }
        requires fits { FitsLines lines.old.items (inverse self.now.splice) }
        ensures ok { OnOk result
            (MakesLines (inverse self.now.splice) lines.old.items lines.new.items) }
        ensures err { OnErr result (lines.new.items ≡ lines.old.items) }
        ensures nonempty { 0 < vec_len lines.new }
        ensures no_memory { IsRemovalInLine (inverse self.now.splice) → IsOk result }
    {
        self.inverse().apply(lines)
    }
}
