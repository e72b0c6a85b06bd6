//! The log of what changed in a document's text.
ghost use Rattle.std.specs.Prelude.{◌≡◌, ◌<◌, ◌≤◌, ◌^◌, length, map, take, IfOk, IfSome, OnErr, OnOk};
ghost use Rattle.textarea_document.specs.Prelude.{chars, lines_of, text_of, IsPlaceOf, Fits, change_view, changes_taken, splice_changes, line_changes, change_of, whole_change, inserted_lines, no_changes, place_in_unit, unit_count, with_more, Utf16};
ghost use Rattle.textarea_document.specs.ChangeLog.{changes_of, kept_view, HasRoomForChange};

use crate::document::Document;
use std::alloc::{AllocError, Global};
use std::mem::replace;
use textarea_change::{ChangeUnit, TextChange};
use textarea_history::edit::Change;
use textarea_text::fragment::copy_fragment;
use textarea_text::places::{line_of, text_end};
use textarea_text::rows::byte_offset;

/// The changes since they were last taken, with the unit of their columns; none are kept without
/// one.
#[derive(Drop)]
pub(crate) struct ChangeLog {
    unit: Option<ChangeUnit>,
    changes: Vec<TextChange>,
}

impl ChangeLog {
    /// Returns a log in this unit, with no change yet.
    pub(crate) fn new(alloc: Global, unit: Option<ChangeUnit>) -> ChangeLog
        ensures { changes_of result ≡ no_changes unit }
    {
        ChangeLog {
            unit,
            changes: Vec::new(alloc),
        }
    }

    /// Returns an empty log in the same unit.
    pub(crate) fn emptied(&self) -> ChangeLog
        ensures { changes_of result ≡ no_changes self.now.unit }
    {
        ChangeLog::new(*self.changes.allocator(), self.unit)
    }

    /// Returns a copy of the log.
    pub(crate) fn copied(&self) -> Result<ChangeLog, AllocError>
        ensures { IfOk result (λ copy. changes_of copy ≡ changes_of self.now) }
    {
        let alloc = *self.changes.allocator();
        let changes = copies(alloc, self.changes.as_slice())?;
        Ok(ChangeLog {
            unit: self.unit,
            changes,
        })
    }

    /// Returns what is to be kept of a change of these lines, and reserves room for it.
    pub(crate) fn prepare(
        &mut self,
        lines: &[String],
        change: &Change<'_>,
    ) -> Result<Option<TextChange>, AllocError>
        requires some { 0 < length lines.now }
        requires fits { Fits (text_of lines.now) change.now }
        ensures same { changes_of self.new ≡ changes_of self.old }
        ensures kept { IfOk result (λ kept. kept_view kept
            ≡ splice_changes self.old.unit (text_of lines.now) change.now) }
        ensures room { IfOk result (λ kept. IfSome kept (λ _. HasRoomForChange self.new)) }
    {
        let Some(unit) = self.unit else {
            return Ok(None);
        };
        self.changes.reserve(1)?;
        let alloc = *self.changes.allocator();
        Ok(Some(change_in(alloc, unit, lines, change)?))
    }

    /// Returns what is to be kept if other lines replace all these, and reserves room for it.
    pub(crate) fn prepare_lines(
        &mut self,
        lines: &[String],
        others: &[String],
    ) -> Result<Option<TextChange>, AllocError>
        requires { 0 < length lines.now }
        ensures same { changes_of self.new ≡ changes_of self.old }
        ensures kept { IfOk result (λ kept. kept_view kept
            ≡ line_changes self.old.unit (text_of lines.now) (lines_of others.now)) }
        ensures room { IfOk result (λ kept. IfSome kept (λ _. HasRoomForChange self.new)) }
    {
        let Some(unit) = self.unit else {
            return Ok(None);
        };
        self.changes.reserve(1)?;
        let alloc = *self.changes.allocator();
        Ok(Some(whole_change(alloc, unit, lines, others)?))
    }

    /// Appends what was prepared.
    pub(crate) fn put(&mut self, kept: Option<TextChange>)
        requires { IfSome kept (λ _. HasRoomForChange self.old) }
        ensures { changes_of self.new
            ≡ with_more (changes_of self.old) (kept_view kept) }
    {
        if let Some(change) = kept {
            let _ = self.changes.push(change);
        }
    }

    /// Appends the changes of another log. Out of memory changes nothing.
    pub(crate) fn append(&mut self, mut other: ChangeLog) -> Result<(), AllocError>
        ensures ok { OnOk result
            (changes_of self.new ≡ with_more (changes_of self.old) (changes_of other).made) }
        ensures err { OnErr result (changes_of self.new ≡ changes_of self.old) }
    {
        self.changes.append(&mut other.changes)
    }

    /// Returns the changes, and empties the log.
    pub(crate) fn take(&mut self) -> Vec<TextChange>
        ensures taken { map change_view result.items ≡ (changes_of self.old).made }
        ensures new { changes_of self.new ≡ no_changes self.old.unit }
    {
        let alloc = *self.changes.allocator();
        replace(&mut self.changes, Vec::new(alloc))
    }
}

// Returns a copy of each change.
fn copies(alloc: Global, changes: &[TextChange]) -> Result<Vec<TextChange>, AllocError>
    ensures { IfOk result (λ copies. map change_view copies.items ≡ map change_view changes.now) }
{
    let mut copies = Vec::new(alloc);
    for change in changes {
        let copy = copy_of(alloc, change)?;
        copies.push(copy)?;
    }
    Ok(copies)
}

fn copy_of(alloc: Global, change: &TextChange) -> Result<TextChange, AllocError>
    ensures { IfOk result (λ copy. change_view copy ≡ change_view change.now) }
{
    let lines = copy_fragment(alloc, change.lines.as_slice())?;
    Ok(TextChange {
        start: change.start,
        end: change.end,
        lines,
    })
}

// Returns the change of these lines with its columns in the unit.
fn change_in(
    alloc: Global,
    unit: ChangeUnit,
    lines: &[String],
    change: &Change<'_>,
) -> Result<TextChange, AllocError>
    requires some { 0 < length lines.now }
    requires fits { Fits (text_of lines.now) change.now }
    ensures { IfOk result (λ made.
        change_view made ≡ change_of unit (text_of lines.now) change.now) }
{
    let inserted = inserted_lines(alloc, change)?;
    let from = change.start();
    let to = change.cursor_before();
    let start = place_in_unit(unit, lines, from);
    let end = place_in_unit(unit, lines, to);
    Ok(TextChange {
        start,
        end,
        lines: inserted,
    })
}

// Returns the lines that the change inserts: one empty line if it removes text.
fn inserted_lines(alloc: Global, change: &Change<'_>) -> Result<Vec<String>, AllocError>
    ensures { IfOk result (λ inserted. lines_of inserted.items ≡ inserted_lines change.now) }
{
    if change.inserts() {
        change.copied_lines(alloc)
    } else {
        copy_fragment(alloc, &[String::new(alloc)])
    }
}

// Returns the change of all lines to others.
fn whole_change(
    alloc: Global,
    unit: ChangeUnit,
    lines: &[String],
    others: &[String],
) -> Result<TextChange, AllocError>
    requires { 0 < length lines.now }
    ensures { IfOk result (λ made.
        change_view made ≡ whole_change unit (text_of lines.now) (lines_of others.now)) }
{
    let inserted = copy_fragment(alloc, others)?;
    let to = text_end(lines);
    let end = place_in_unit(unit, lines, to);
    Ok(TextChange {
        start: (0, 0),
        end,
        lines: inserted,
    })
}

// Returns the position with its column in the unit.
fn place_in_unit(unit: ChangeUnit, lines: &[String], place: (usize, usize)) -> (usize, usize)
    requires { IsPlaceOf (lines_of lines.now) place }
    ensures { result ≡ place_in_unit unit (lines_of lines.now) place }
{
    let line = line_of(lines, place.0);
    match unit {
        ChangeUnit::Characters => place,
        ChangeUnit::Bytes => (place.0, byte_offset(line, place.1)),
        ChangeUnit::Utf16 => (place.0, utf16_offset(line, place.1)),
    }
}

// Returns the number of units in UTF-16 of the text before the column.
fn utf16_offset(line: &str, column: usize) -> usize
    requires within { column ≤ length (chars line.now) }
    requires bound { length (chars line.now) < 2 ^ 63 }
    ensures { result ≡ unit_count Utf16 (take column (chars line.now)) }
{
    let mut units = 0;
    for c in line.chars().take(column) {
        units += c.len_utf16();
    }
    units
}

impl Document {
    /// Begins a log of what changes in the text, with columns in this unit, or ends it for `None`.
    /// The changes in the log before are forgotten.
    pub fn set_change_log(&mut self, unit: Option<ChangeUnit>)
        ensures { self.new ≡ record self.old { changes = no_changes unit } }
    {
        let log = ChangeLog::new(self.allocator(), unit);
        self.changes = log;
    }

    /// Returns what changed in the text since this was last called, or since the log began; nothing
    /// without a log. The changes, one after another, lead from the text at that time to the text
    /// now: `changes_lead` is the law.
    pub fn take_changes(&mut self) -> Vec<TextChange>
        ensures taken { map change_view result.items ≡ self.old.changes.made }
        ensures new { self.new ≡ changes_taken self.old }
    {
        self.changes.take()
    }
}
