//! Whole characters: in a text area whose cursor goes by grapheme clusters, no call leaves the cursor
//! or the selection's beginning inside one.
ghost use Rattle.std.specs.Prelude.{◌≡◌, ◌<◌, ◌≤◌, IfSome, option_map};
ghost use Rattle.textarea_data.specs.declared.range.AtomicCursorBias.TheVariants.{Backward, Forward};
ghost use Rattle.textarea_text.specs.Place.{is_before};
ghost use Rattle.tui_textarea.specs.Prelude.{IsPlace, index_of, with_document};
ghost use Rattle.tui_textarea.specs.Units.{IsAtStop, past_cursor, before_cursor, document_settled, earlier_start, if_elsewhere, later_end, settled, stop_of, whole_end, whole_start, whole_stretch, widened_stretch};

use crate::textarea::TextArea;
use textarea_clusters::stops::{stop_ahead, stop_back};
use textarea_data::cursor::CursorUnit;
use textarea_data::range::AtomicCursorBias;
use textarea_text::places::line_end;

impl TextArea<'_> {
    /// Sets whether the cursor goes by characters, as at first, or by extended grapheme clusters.
    /// With `Cluster`, each call that would leave the cursor or the selection's beginning strictly
    /// inside a cluster or an atomic range moves it out: the cursor as at ranges, which is back
    /// after the moves that go back and `search_back`, and else forward; the selection's beginning
    /// back. This call does so too. Each removal but that of `delete_str` takes whole clusters and
    /// ranges of the text before it; what stays may form other clusters, as flags do. Searches,
    /// counts and replacements skip a match at an end of which no cluster begins or ends.
    pub fn set_cursor_unit(&mut self, unit: CursorUnit)
        ensures { self.new ≡ settled Forward (record self.old
            { settings = record self.old.settings { cursor_unit = unit } }) }
    {
        self.settings.cursor_unit = unit;
        self.settle(AtomicCursorBias::Forward);
    }

    /// Returns whether the cursor goes by characters or by grapheme clusters.
    pub fn cursor_unit(&self) -> CursorUnit
        ensures { result ≡ self.now.settings.cursor_unit }
    {
        self.settings.cursor_unit
    }

    // Moves the cursor and the selection's beginning out of what strictly contains them, if the
    // cursor goes by clusters. A run of typing goes on. Each call that may leave one there ends so.
    #[tactic(auto, unfolding(crate::specs::Units::settled))]
    pub(super) fn settle(&mut self, bias: AtomicCursorBias)
        ensures new { self.new ≡ settled bias self.old }
        ensures text { self.new.document.text ≡ self.old.document.text }
    {
        match self.settings.cursor_unit {
            CursorUnit::Character => {}
            CursorUnit::Cluster => self.settle_at_stops(bias),
        }
    }

    fn settle_at_stops(&mut self, bias: AtomicCursorBias)
        ensures { self.new ≡ with_document self.old (document_settled bias self.old.document) }
    {
        let cursor = self.stop_of(bias, self.document.cursor());
        let anchor = self.anchor_stop();
        self.document.set_cursor(cursor);
        self.document.set_anchor(anchor);
    }

    // Returns the last stop at or before the selection's beginning.
    fn anchor_stop(&self) -> Option<(usize, usize)>
        ensures value { result ≡ option_map (stop_of Backward self.now.document)
            self.now.document.anchor }
        ensures place { IfSome result (IsPlace self.now.document.text) }
    {
        let anchor = self.document.anchor()?;
        Some(self.stop_of(AtomicCursorBias::Backward, anchor))
    }

    // Returns the position, or the end in this direction of what strictly contains it.
    fn stop_of(&self, bias: AtomicCursorBias, place: (usize, usize)) -> (usize, usize)
        requires { IsPlace self.now.document.text place }
        ensures value { result ≡ stop_of bias self.now.document place }
        ensures place { IsPlace self.now.document.text result }
        ensures stop { IsAtStop self.now.document result }
    {
        let lines = self.document.lines();
        match bias {
            AtomicCursorBias::Backward => stop_back(lines, self.document.ranges(), place),
            AtomicCursorBias::Forward => stop_ahead(lines, self.document.ranges(), place),
        }
    }

    // Returns where a removal from the position begins.
    pub(super) fn whole_start(&self, place: (usize, usize)) -> (usize, usize)
        requires { IsPlace self.now.document.text place }
        ensures value { result ≡ whole_start self.now place }
        ensures place { IsPlace self.now.document.text result }
        ensures upto { index_of self.now.document.text result
            ≤ index_of self.now.document.text place }
    {
        match self.settings.cursor_unit {
            CursorUnit::Character => place,
            CursorUnit::Cluster => self.stop_of(AtomicCursorBias::Backward, place),
        }
    }

    // Returns where a removal up to the position ends.
    pub(super) fn whole_end(&self, place: (usize, usize)) -> (usize, usize)
        requires { IsPlace self.now.document.text place }
        ensures value { result ≡ whole_end self.now place }
        ensures place { IsPlace self.now.document.text result }
        ensures from { index_of self.now.document.text place
            ≤ index_of self.now.document.text result }
    {
        match self.settings.cursor_unit {
            CursorUnit::Character => place,
            CursorUnit::Cluster => self.stop_of(AtomicCursorBias::Forward, place),
        }
    }

    // Returns where the removal of the character before the cursor begins, if that removes more.
    pub(super) fn earlier_start(&self) -> Option<(usize, usize)>
        ensures value { result ≡ earlier_start self.now }
        ensures place { IfSome result (IsPlace self.now.document.text) }
        ensures before { IfSome result (λ start. index_of self.now.document.text start
            < index_of self.now.document.text self.now.document.cursor) }
    {
        match self.settings.cursor_unit {
            CursorUnit::Character => None,
            CursorUnit::Cluster => self.stop_before(),
        }
    }

    fn stop_before(&self) -> Option<(usize, usize)>
        ensures value { result ≡ if_elsewhere (before_cursor self.now.document)
            (stop_of Backward self.now.document (before_cursor self.now.document)) }
        ensures place { IfSome result (IsPlace self.now.document.text) }
        ensures before { IfSome result (λ start. index_of self.now.document.text start
            < index_of self.now.document.text self.now.document.cursor) }
    {
        self.document.is_sound();
        let (row, column) = self.document.cursor();
        let before = column.saturating_sub(1);
        let start = self.stop_of(AtomicCursorBias::Backward, (row, before));
        if start.1 == before {
            return None;
        }
        Some(start)
    }

    // Returns where the removal of the character after the cursor ends, if that removes more.
    pub(super) fn later_end(&self) -> Option<(usize, usize)>
        ensures value { result ≡ later_end self.now }
        ensures place { IfSome result (IsPlace self.now.document.text) }
        ensures after { IfSome result (λ stop.
            index_of self.now.document.text self.now.document.cursor
            < index_of self.now.document.text stop) }
    {
        match self.settings.cursor_unit {
            CursorUnit::Character => None,
            CursorUnit::Cluster => self.stop_after(),
        }
    }

    fn stop_after(&self) -> Option<(usize, usize)>
        ensures value { result ≡ if_elsewhere (past_cursor self.now.document)
            (stop_of Forward self.now.document (past_cursor self.now.document)) }
        ensures place { IfSome result (IsPlace self.now.document.text) }
        ensures after { IfSome result (λ stop.
            index_of self.now.document.text self.now.document.cursor
            < index_of self.now.document.text stop) }
    {
        self.document.is_sound();
        let (row, column) = self.document.cursor();
        let end = line_end(self.document.lines(), row).1;
        if column == end {
            return None;
        }
        let after = column + 1;
        let stop = self.stop_of(AtomicCursorBias::Forward, (row, after));
        if stop.1 == after {
            return None;
        }
        Some(stop)
    }

    // Returns the ends of what is replaced between two positions.
    pub(super) fn whole_stretch(
        &self,
        from: (usize, usize),
        to: (usize, usize),
    ) -> ((usize, usize), (usize, usize))
        ensures { result ≡ whole_stretch self.now from to }
    {
        match self.settings.cursor_unit {
            CursorUnit::Character => (from, to),
            CursorUnit::Cluster => {
                let (start, stop) = self.document.stretch(from, to);
                self.widened_stretch(start, stop)
            }
        }
    }

    fn widened_stretch(
        &self,
        start: (usize, usize),
        stop: (usize, usize),
    ) -> ((usize, usize), (usize, usize))
        requires start { IsPlace self.now.document.text start }
        requires stop { IsPlace self.now.document.text stop }
        ensures { result ≡ widened_stretch self.now.document start stop }
    {
        if comes_before(start, stop) {
            let first = self.stop_of(AtomicCursorBias::Backward, start);
            return (first, self.stop_of(AtomicCursorBias::Forward, stop));
        }
        let place = self.stop_of(AtomicCursorBias::Forward, start);
        (place, place)
    }
}

fn comes_before(first: (usize, usize), second: (usize, usize)) -> bool
    ensures { result ≡ is_before first second }
{
    first.0 < second.0 || first.0 == second.0 && first.1 < second.1
}
