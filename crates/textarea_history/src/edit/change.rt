//! Changes: borrowed edits with a direction.
ghost use Rattle.std.specs.Prelude.{◌≡◌, ◌<◌, ◌≤◌, ◌+◌, ◌++◌, ◌↔◌, length, min, IsTrue, IsOk, OnOk, OnErr, IfOk, true, false, vec_len};
ghost use Rattle.textarea_history.specs.Prelude.{chars, characters, following, lines_of, text_of, weight, offset_at, IsPlaceOf, end, Fits, place_after, place_before, IsReplacementFor, breaks_of, IsRemovalInLine, MakesLines};

use super::{Content, Edit};
use crate::texts::reverse_text;
use std::alloc::{AllocError, Global};
use std::marker::Model;
use textarea_text::inside::{insert_inside, remove_inside};
use textarea_text::rows::{Replacement, byte_offset, prepare_replacement, size_of};

/// A borrowed, well-formed edit with a direction: as it is made, or undone. Its model is a splice.
#[derive(Drop)]
pub struct Change<'a> {
    pub(super) edit: &'a Edit,
    pub(super) inserts: bool,
}

impl<'a> Model for Change<'a> {
    ghost use Rattle.textarea_text.specs.Splice.{Splice};

    ghost Value = { Splice };

    ghost use Rattle.textarea_history.specs.Edit.{IsWellFormed, directed};

    ghost view = { λ change. directed change.edit.now.splice change.inserts };

    ghost invariant = { λ change. IsWellFormed change.edit.now };
}

impl<'a> Change<'a> {
    /// Returns whether it inserts its symbols. Else it removes them.
    pub fn inserts(&self) -> bool
        ensures { result ≡ self.now.inserts }
    {
        self.inserts
    }

    /// Returns where its symbols begin, as (row, column).
    pub fn start(&self) -> (usize, usize)
        ensures { result ≡ self.now.place }
    {
        let edit = self.edit;
        edit.start
    }

    // Where its symbols end, after an insertion or before a removal.
    fn end(&self) -> (usize, usize)
        ensures { result ≡ end self.now.place self.now.symbols }
    {
        let edit = self.edit;
        edit.end
    }

    /// Returns the cursor's (row, column) before the change.
    pub fn cursor_before(&self) -> (usize, usize)
        ensures { result ≡ place_before self.now }
    {
        let edit = self.edit;
        if self.inserts { edit.start } else { edit.end }
    }

    /// Returns the cursor's (row, column) after the change.
    pub fn cursor_after(&self) -> (usize, usize)
        ensures { result ≡ place_after self.now }
    {
        let edit = self.edit;
        if self.inserts { edit.end } else { edit.start }
    }

    /// Returns whether it has no line break, so that it changes only one line.
    pub fn is_inside_line(&self) -> bool
        ensures { IsTrue result ↔ (breaks_of self.now.symbols ≡ 0) }
    {
        self.start().0 == self.end().0
    }

    /// Returns the bytes of its symbols, with one for each line break; at most `usize::MAX`.
    pub fn weight(&self) -> usize
        ensures { result ≡ min (weight self.now.symbols) usize.MAX }
    {
        let edit = self.edit;
        match &edit.content {
            Content::Character(c) => c.len_utf8(),
            Content::Text(text) => text.len(),
            Content::Typed(text) => text.len(),
            Content::Break => 1,
            Content::Lines(fragment_lines) => weight_of_fragment(fragment_lines.as_slice()),
            Content::Shared(fragment_lines) => weight_of_fragment(fragment_lines.as_slice()),
        }
    }

    /// Makes the change on lines that it fits, in place if it has no line break.
    pub fn apply(&self, lines: &mut Vec<String>) -> Result<(), AllocError>
        requires nonempty { 0 < vec_len lines.old }
        requires fits { Fits (text_of lines.old.items) self.now }
        ensures ok { OnOk result (MakesLines self.now lines.old.items lines.new.items) }
        ensures err { OnErr result (lines.new.items ≡ lines.old.items) }
        ensures nonempty { 0 < vec_len lines.new }
        ensures no_memory { IsRemovalInLine self.now → IsOk result }
    {
        if self.is_inside_line() {
            let (row, column) = self.start();
            let offset = byte_offset(lines[row].as_str(), column);
            return self.apply_inside(lines, offset);
        }
        self.prepare(*lines.allocator(), lines.as_slice())?
            .apply(lines)
    }

    /// Makes a change without a line break, in place. `offset` is the byte offset of its start in
    /// the line, which is the same before and after the change.
    pub fn apply_inside(&self, lines: &mut Vec<String>, offset: usize) -> Result<(), AllocError>
        requires inside { breaks_of self.now.symbols ≡ 0 }
        requires nonempty { 0 < vec_len lines.old }
        requires fits { Fits (text_of lines.old.items) self.now }
        requires offset { offset ≡ offset_at (lines_of lines.old.items) self.now.place }
        ensures ok { OnOk result (MakesLines self.now lines.old.items lines.new.items) }
        ensures err { OnErr result (lines.new.items ≡ lines.old.items) }
        ensures len { vec_len lines.new ≡ vec_len lines.old }
        ensures no_memory { self.now.inserts ≡ false → IsOk result }
        ensures start { IsPlaceOf (lines_of lines.new.items) self.now.place }
        ensures offset { offset ≡ offset_at (lines_of lines.new.items) self.now.place }
    {
        if !self.inserts {
            let start = self.start();
            let end = self.end();
            remove_inside(lines, start, offset, end.1, offset + self.weight());
            return Ok(());
        }
        let edit = self.edit;
        match &edit.content {
            Content::Character(c) => {
                let mut buffer = [0u8; 4];
                self.insert_inside(lines, offset, c.encode_utf8(&mut buffer))
            }
            Content::Text(text) => self.insert_inside(lines, offset, text.as_str()),
            Content::Typed(text) => {
                if edit.inserts {
                    return self.insert_inside(lines, offset, text.as_str());
                }
                let restored = reverse_text(*lines.allocator(), text.as_str())?;
                self.insert_inside(lines, offset, restored.as_str())
            }
            Content::Break | Content::Lines(_) | Content::Shared(_) => unreachable!(),
        }
    }

    // Inserts its symbols, which are `text`, in place at the byte offset of its start.
    fn insert_inside(
        &self,
        lines: &mut Vec<String>,
        offset: usize,
        text: &str,
    ) -> Result<(), AllocError>
        requires inserts { self.now.inserts ≡ true }
        requires symbols { characters (chars text.now) ≡ self.now.symbols }
        requires nonempty { 0 < vec_len lines.old }
        requires fits { Fits (text_of lines.old.items) self.now }
        requires offset { offset ≡ offset_at (lines_of lines.old.items) self.now.place }
        ensures ok { OnOk result (MakesLines self.now lines.old.items lines.new.items) }
        ensures err { OnErr result (lines.new.items ≡ lines.old.items) }
        ensures len { vec_len lines.new ≡ vec_len lines.old }
        ensures start { IsPlaceOf (lines_of lines.new.items) self.now.place }
        ensures offset { offset ≡ offset_at (lines_of lines.new.items) self.now.place }
    {
        insert_inside(lines, self.start(), offset, text)
    }

    /// Builds the replacement that makes the change; `lines` stay unchanged.
    pub fn prepare(&self, alloc: Global, lines: &[String]) -> Result<Replacement, AllocError>
        requires nonempty { 0 < length lines.now }
        requires fits { Fits (text_of lines.now) self.now }
        ensures { IfOk result (IsReplacementFor lines.now self.now) }
    {
        if !self.inserts {
            let start = self.start();
            return prepare_replacement(alloc, lines, start, self.end(), "", &[]);
        }
        let edit = self.edit;
        match &edit.content {
            Content::Character(c) => {
                let mut buffer = [0u8; 4];
                self.prepare_insertion(alloc, lines, c.encode_utf8(&mut buffer), &[])
            }
            Content::Text(text) => self.prepare_insertion(alloc, lines, text.as_str(), &[]),
            Content::Typed(text) if edit.inserts => {
                self.prepare_insertion(alloc, lines, text.as_str(), &[])
            }
            Content::Typed(text) => {
                let restored = reverse_text(alloc, text.as_str())?;
                self.prepare_insertion(alloc, lines, restored.as_str(), &[])
            }
            Content::Break => self.prepare_insertion(alloc, lines, "", &[String::new(alloc)]),
            Content::Lines(fragment) => {
                self.prepare_insertion(alloc, lines, fragment[0].as_str(), &fragment[1..])
            }
            Content::Shared(fragment) => {
                self.prepare_insertion(alloc, lines, fragment[0].as_str(), &fragment[1..])
            }
        }
    }

    // Builds the replacement that inserts `first` and, each after a break, the lines of `rest`.
    fn prepare_insertion(
        &self,
        alloc: Global,
        lines: &[String],
        first: &str,
        rest: &[String],
    ) -> Result<Replacement, AllocError>
        requires inserts { self.now.inserts ≡ true }
        requires symbols { characters (chars first.now) ++ following (lines_of rest.now)
            ≡ self.now.symbols }
        requires nonempty { 0 < length lines.now }
        requires fits { Fits (text_of lines.now) self.now }
        ensures { IfOk result (IsReplacementFor lines.now self.now) }
    {
        let start = self.start();
        prepare_replacement(alloc, lines, start, start, first, rest)
    }
}

// The bytes of a fragment: those of its lines, and one for each break.
fn weight_of_fragment(fragment_lines: &[String]) -> usize
    ensures { result ≡ min (weight (text_of fragment_lines.now)) usize.MAX }
{
    match fragment_lines {
        [] => 0,
        [first, rest @ ..] => size_of(rest).saturating_add(first.len()),
    }
}
