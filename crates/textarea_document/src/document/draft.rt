//! A copy of a document, in which the edits of a group are undone or redone one after another.
ghost use Rattle.std.specs.Prelude.{◌≡◌, OnOk, OnErr};
ghost use Rattle.textarea_document.specs.Prelude.{edit_redone, edit_undone, times};

use crate::document::changes::ChangeLog;
use crate::document::range_history::RangeHistory;
use crate::document::undo::{redo_edit, undo_edit};
use std::alloc::AllocError;
use std::marker::Model;
use textarea_data::range::AtomicRange;
use textarea_history::history::History;
use textarea_lines::text_layout::TextLayout;

/// What a document consists of. Unlike in a document, a group may be undone partly.
#[derive(Drop)]
pub(crate) struct Draft {
    pub(crate) text_layout: TextLayout,
    pub(crate) cursor: (usize, usize),
    pub(crate) anchor: Option<(usize, usize)>,
    pub(crate) ranges: Vec<AtomicRange>,
    pub(crate) history: History,
    pub(crate) changes: ChangeLog,
    pub(crate) range_history: RangeHistory,
}

impl Model for Draft {
    ghost use Rattle.textarea_document.specs.ChangeLog.{changes_of};
    ghost use Rattle.textarea_document.specs.RangeHistory.{past_of};
    ghost use Rattle.textarea_document.specs.DocumentState.{DocumentState, document_of};

    ghost Value = { DocumentState };

    ghost use Rattle.textarea_document.specs.Sound.{IsSoundInside};

    ghost view = { λ draft.
        document_of draft.text_layout draft.cursor draft.anchor draft.ranges.items
        draft.history.log (changes_of draft.changes) (past_of draft.range_history) };

    ghost invariant = { λ draft. IsSoundInside
        (document_of draft.text_layout draft.cursor draft.anchor draft.ranges.items
        draft.history.log (changes_of draft.changes) (past_of draft.range_history)) };
}

impl Draft {
    /// Undoes the newest edits, `count` in number, or all if they are fewer.
    pub(crate) fn undo_edits(&mut self, count: usize) -> Result<(), AllocError>
        ensures { OnOk result (self.new ≡ times count edit_undone self.old) }
    {
        for _ in 0..count {
            self.undo_edit()?;
        }
        Ok(())
    }

    /// Redoes the edits that were undone last, `count` in number, or all if they are fewer.
    pub(crate) fn redo_edits(&mut self, count: usize) -> Result<(), AllocError>
        ensures { OnOk result (self.new ≡ times count edit_redone self.old) }
    {
        for _ in 0..count {
            self.redo_edit()?;
        }
        Ok(())
    }

    // Undoes the newest edit, and returns whether there was one.
    fn undo_edit(&mut self) -> Result<bool, AllocError>
        ensures ok { OnOk result (self.new ≡ edit_undone self.old) }
        ensures err { OnErr result (self.new ≡ self.old) }
    {
        undo_edit(
            &mut self.text_layout,
            &mut self.cursor,
            &mut self.anchor,
            &mut self.ranges,
            &mut self.history,
            &mut self.changes,
            &self.range_history,
        )
    }

    // Redoes the edit that was undone last, and returns whether there was one.
    fn redo_edit(&mut self) -> Result<bool, AllocError>
        ensures ok { OnOk result (self.new ≡ edit_redone self.old) }
        ensures err { OnErr result (self.new ≡ self.old) }
    {
        redo_edit(
            &mut self.text_layout,
            &mut self.cursor,
            &mut self.anchor,
            &mut self.ranges,
            &mut self.history,
            &mut self.changes,
            &self.range_history,
        )
    }
}
