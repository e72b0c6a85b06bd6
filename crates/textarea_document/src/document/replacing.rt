//! Text that is replaced: a removal and an insertion, in one group of edits.
ghost use Rattle.std.specs.Prelude.{◌≡◌, ◌≤◌, string_bytes, OnOk, OnErr, IfOk};
ghost use Rattle.std.specs.Arc.{arc_value};
ghost use Rattle.textarea_text.specs.Fragment.{fragment_text};
ghost use Rattle.textarea_document.specs.Prelude.{as_nanos, chars, text_and_layout, text_of, wrapped_at_once, IsChangedFrom, IsPlace, index_of};
ghost use Rattle.textarea_document.specs.Replacing.{ahead_replaced, all_replaced, each_replaced, ended_after, first_place, last_place, range_replaced, replaces, stretch_end, stretch_removed, stretch_replaced, stretch_start, stretch_symbols};

use crate::document::Document;
use crate::document::insertions::has_symbol;
use crate::document::selection::comes_before;
use std::alloc::AllocError;
use std::sync::Arc;
use std::time::Duration;
use textarea_text::fragment::join_with_line_feeds;
use textarea_text::places::{ahead, clip};
use textarea_text::text_slice::between;

impl Document {
    /// Returns the positions of the text that are nearest to these two, the first one first.
    pub fn stretch(
        &self,
        from: (usize, usize),
        to: (usize, usize),
    ) -> ((usize, usize), (usize, usize))
        ensures start { result.0 ≡ stretch_start self.now.text from to }
        ensures end { result.1 ≡ stretch_end self.now.text from to }
        ensures start_place { IsPlace self.now.text result.0 }
        ensures end_place { IsPlace self.now.text result.1 }
        ensures ordered { index_of self.now.text result.0 ≤ index_of self.now.text result.1 }
    {
        let lines = self.lines();
        let one = clip(lines, from);
        let other = clip(lines, to);
        in_order(one, other)
    }

    /// Returns the text between the positions that are nearest to these two, which may be in either
    /// order, with a line feed for each line break.
    pub fn text_range(&self, from: (usize, usize), to: (usize, usize)) -> Result<String, AllocError>
        ensures { IfOk result (λ text.
            chars (string_bytes text) ≡ fragment_text (stretch_symbols self.now.text from to)) }
    {
        let (start, end) = self.stretch(from, to);
        let alloc = self.allocator();
        let fragment_lines = between(alloc, self.lines(), start, end)?;
        join_with_line_feeds(alloc, fragment_lines.as_slice())
    }

    /// Returns a copy of the document in which the text between the positions that are nearest to
    /// these two, which may be in either order, is removed, with each range that it overlaps, and
    /// the fragment is inserted there. Both are one group of edits, which ends unless a group was
    /// open before. The cursor is after the fragment, and nothing is selected.
    #[tactic(auto, unfolding(crate::specs::Replacing::range_replaced))]
    pub fn replaced(
        &self,
        from: (usize, usize),
        to: (usize, usize),
        fragment_lines: Arc<Vec<String>>,
        now: Duration,
    ) -> Result<Document, AllocError>
        ensures { IfOk result (λ copy. copy ≡ range_replaced self.now from to
            (text_of (arc_value fragment_lines).items) (as_nanos now)) }
    {
        let (start, end) = self.stretch(from, to);
        let mut copy = self.copied()?;
        copy.begin_group();
        copy.replace_stretch(start, end, fragment_lines, now)?;
        Ok(self.end_group_of(copy))
    }

    /// Replaces the text between two positions as `replaced` does, and returns whether that removed
    /// or inserted a symbol.
    pub fn replace_range(
        &mut self,
        from: (usize, usize),
        to: (usize, usize),
        fragment_lines: Arc<Vec<String>>,
        now: Duration,
    ) -> Result<bool, AllocError>
        ensures replaced { IfOk result (λ replaced. replaced
            ≡ replaces self.old.text from to (text_of (arc_value fragment_lines).items)) }
        ensures ok { OnOk result (self.new ≡ range_replaced self.old from to
            (text_of (arc_value fragment_lines).items) (as_nanos now)) }
        ensures err { OnErr result (self.new ≡ self.old) }
    {
        let (start, end) = self.stretch(from, to);
        let replaces = comes_before(start, end) || has_symbol(fragment_lines.as_slice());
        let copy = self.replaced(from, to, fragment_lines, now)?;
        self.replace_with(copy);
        Ok(replaces)
    }

    /// Replaces stretches of the text by the fragment, one after another, as one group of edits,
    /// which ends unless a group was open. Each stretch is given by the number of symbols before
    /// its start and before its end in the text as it is now; they are in order. What is inserted
    /// is passed over. The cursor is then after the last of them; without any, nothing changes. Each
    /// line that is touched is wrapped once, and no other, unless the number of lines changes how
    /// lines wrap.
    #[tactic(auto, unfolding(crate::specs::Replacing::all_replaced))]
    pub fn replace_all(
        &mut self,
        stretches: &[(usize, usize)],
        fragment_lines: &Arc<Vec<String>>,
        now: Duration,
    ) -> Result<(), AllocError>
        ensures ok { OnOk result (self.new ≡ all_replaced self.old stretches.now
            (text_of (arc_value fragment_lines.now).items) (as_nanos now)) }
        ensures err { OnErr result (self.new ≡ self.old) }
    {
        if stretches.is_empty() {
            return Ok(());
        }
        self.is_sound();
        let mut copy = self.with_lines_numbered()?;
        copy.begin_group();
        copy.move_to((0, 0), None);
        copy.replace_each(stretches, fragment_lines, now)?;
        let ended = self.end_group_of(copy);
        self.put_edited(ended)
    }

    // Replaces the stretches one after another, from the cursor on, before which there are none.
    fn replace_each(
        &mut self,
        stretches: &[(usize, usize)],
        fragment_lines: &Arc<Vec<String>>,
        now: Duration,
    ) -> Result<(), AllocError>
        ensures { OnOk result (self.new ≡ each_replaced self.old 0 stretches.now
            (text_of (arc_value fragment_lines.now).items) (as_nanos now)) }
    {
        let mut passed = 0;
        for stretch in stretches {
            let (start, end) = *stretch;
            let fragment = fragment_lines.clone()?;
            let skip = start.saturating_sub(passed);
            self.replace_ahead(skip, end.saturating_sub(start), fragment, now)?;
            passed = end;
        }
        Ok(())
    }

    // Skips `skip` symbols after the cursor, and replaces the `count` symbols after them.
    #[tactic(auto, unfolding(crate::specs::Replacing::ahead_replaced))]
    fn replace_ahead(
        &mut self,
        skip: usize,
        count: usize,
        fragment_lines: Arc<Vec<String>>,
        now: Duration,
    ) -> Result<(), AllocError>
        ensures { OnOk result (self.new ≡ ahead_replaced self.old skip count
            (text_of (arc_value fragment_lines).items) (as_nanos now)) }
    {
        let start = ahead(self.lines(), self.cursor(), skip);
        let end = ahead(self.lines(), start, count);
        self.replace_stretch(start, end, fragment_lines, now)
    }

    // Removes the text between the positions, if there is any, and inserts the fragment there.
    #[tactic(auto, unfolding(crate::specs::Replacing::stretch_replaced))]
    pub(super) fn replace_stretch(
        &mut self,
        start: (usize, usize),
        end: (usize, usize),
        fragment_lines: Arc<Vec<String>>,
        now: Duration,
    ) -> Result<(), AllocError>
        requires start { IsPlace self.old.text start }
        requires end { IsPlace self.old.text end }
        ensures { OnOk result (self.new ≡ stretch_replaced self.old start end
            (text_of (arc_value fragment_lines).items) (as_nanos now)) }
    {
        self.remove_stretch(start, end, now)?;
        self.insert(fragment_lines, now)?;
        Ok(())
    }

    // Removes the text between the positions; if there is none, moves the cursor there.
    #[tactic(auto, using(crate::proofs::Orders::index_before), unfolding(crate::specs::Replacing::stretch_removed))]
    pub(super) fn remove_stretch(
        &mut self,
        start: (usize, usize),
        end: (usize, usize),
        now: Duration,
    ) -> Result<(), AllocError>
        requires start { IsPlace self.old.text start }
        requires end { IsPlace self.old.text end }
        ensures { OnOk result (self.new ≡ stretch_removed self.old start end (as_nanos now)) }
    {
        if comes_before(start, end) {
            return self.remove(start, end, now);
        }
        self.move_to(start, None);
        Ok(())
    }

    // Ends the group that began in a copy of this document, unless one is open here.
    pub(super) fn end_group_of(&self, copy: Document) -> Document
        ensures { result ≡ ended_after self.now copy }
    {
        let mut ended = copy;
        if !self.has_open_group() {
            ended.end_group();
        }
        ended
    }

    // Replaces the document by a copy to which edits of its numbered lines led, and wraps each line
    // that they touched.
    fn put_edited(&mut self, copy: Document) -> Result<(), AllocError>
        requires { IsChangedFrom (text_and_layout self.old) (text_and_layout copy) }
        ensures ok { OnOk result (self.new ≡ wrapped_at_once self.old copy) }
        ensures err { OnErr result (self.new ≡ self.old) }
    {
        let Document {
            text_layout,
            cursor,
            anchor,
            ranges,
            history,
            changes,
            range_history,
        } = copy;
        let wrapped = self.text_layout.wrapped_once(text_layout)?;
        self.text_layout = wrapped;
        self.cursor = cursor;
        self.anchor = anchor;
        self.ranges = ranges;
        self.history = history;
        self.changes = changes;
        self.range_history = range_history;
        Ok(())
    }

    /// Replaces the document by another one.
    pub fn replace_with(&mut self, other: Document)
        ensures { self.new ≡ other }
    {
        let Document {
            text_layout,
            cursor,
            anchor,
            ranges,
            history,
            changes,
            range_history,
        } = other;
        self.text_layout = text_layout;
        self.cursor = cursor;
        self.anchor = anchor;
        self.ranges = ranges;
        self.history = history;
        self.changes = changes;
        self.range_history = range_history;
    }
}

// Returns two positions, the first one first.
fn in_order(one: (usize, usize), other: (usize, usize)) -> ((usize, usize), (usize, usize))
    ensures { result ≡ (first_place one other, last_place one other) }
{
    if comes_before(other, one) {
        (other, one)
    } else {
        (one, other)
    }
}
