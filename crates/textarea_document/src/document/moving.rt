//! Lines that change places with the line above or below them, in one group.
ghost use Rattle.std.specs.Prelude.{◌≡◌, ◌∷◌, [], false, option_map, IfOk, IsOk, OnErr, OnOk};
ghost use Rattle.std.specs.Arc.{arc_value};
ghost use Rattle.textarea_document.specs.Prelude.{as_nanos, chars, joined, lines, text_of, IsPlace};
ghost use Rattle.textarea_document.specs.Moving.{has_line_above, has_line_below, lines_moved_down, lines_moved_up, relocated, row_down, row_up, with_lines_down, with_lines_up};
ghost use Rattle.textarea_document.specs.Selection.{first_selected_row, last_selected_row};

use crate::document::Document;
use std::alloc::{AllocError, Global};
use std::sync::Arc;
use std::time::Duration;
use textarea_text::places::{clip, last_row, line_end, line_length, line_of};

impl Document {
    /// Moves the selection's lines, or the cursor's line without one, up by one row, so that the
    /// line above is below them, and returns whether there was one; without one nothing changes.
    /// The selection's lines are those of `duplicate_lines`. It is one group of edits, which ends
    /// unless a group was open. Cursor and anchor move with the text, as do the atomic ranges of
    /// the lines; those of the line that they pass are removed. A run of typing ends.
    pub fn move_lines_up(&mut self, now: Duration) -> Result<bool, AllocError>
        ensures moved { IfOk result (λ moved. moved ≡ has_line_above self.old) }
        ensures ok { OnOk result (self.new ≡ lines_moved_up self.old (as_nanos now)) }
        ensures err { OnErr result (self.new ≡ self.old) }
        ensures nothing { has_line_above self.old ≡ false → IsOk result }
        ensures lines { OnOk result (lines self.new.text ≡ with_lines_up (lines self.old.text)
            (first_selected_row self.old) (last_selected_row self.old)) }
    {
        self.is_sound();
        let (first, last) = self.selected_rows();
        if first == 0 {
            return Ok(false);
        }
        let lines = self.lines();
        let fragment_lines = two_lines(self.allocator(), "", line_of(lines, first - 1))?;
        let place = (last - 1, line_length(lines, last));
        let cursor = row_up(self.cursor());
        let anchor = self.anchor_up();
        let copy = self.relocated((first - 1, 0), (first, 0), place, fragment_lines, now)?;
        self.replace_with(copy);
        self.move_near(cursor, anchor);
        Ok(true)
    }

    /// Moves the selection's lines, or the cursor's line without one, down by one row, so that the
    /// line below is above them, and returns whether there was one. A selection that ends at column
    /// 0 of the text's last line then ends at the end of the last of its lines. All else is as for
    /// `move_lines_up`.
    pub fn move_lines_down(&mut self, now: Duration) -> Result<bool, AllocError>
        ensures moved { IfOk result (λ moved. moved ≡ has_line_below self.old) }
        ensures ok { OnOk result (self.new ≡ lines_moved_down self.old (as_nanos now)) }
        ensures err { OnErr result (self.new ≡ self.old) }
        ensures nothing { has_line_below self.old ≡ false → IsOk result }
        ensures lines { OnOk result (lines self.new.text ≡ with_lines_down (lines self.old.text)
            (first_selected_row self.old) (last_selected_row self.old)) }
    {
        self.is_sound();
        let (first, last) = self.selected_rows();
        let lines = self.lines();
        if lines.len() <= last + 1 {
            return Ok(false);
        }
        let fragment_lines = two_lines(self.allocator(), line_of(lines, last + 1), "")?;
        let start = line_end(lines, last);
        let stop = line_end(lines, last + 1);
        let cursor = self.row_down(self.cursor());
        let anchor = self.anchor_down();
        let copy = self.relocated(start, stop, (first, 0), fragment_lines, now)?;
        self.replace_with(copy);
        self.move_near(cursor, anchor);
        Ok(true)
    }

    // Returns a copy of the document in which the text between two positions is removed, and then
    // the fragment is inserted at the position nearest to another one. Both are one group of edits,
    // which ends unless a group was open before.
    #[tactic(auto, unfolding(crate::specs::Moving::relocated))]
    fn relocated(
        &self,
        start: (usize, usize),
        stop: (usize, usize),
        place: (usize, usize),
        fragment_lines: Arc<Vec<String>>,
        now: Duration,
    ) -> Result<Document, AllocError>
        requires start { IsPlace self.now.text start }
        requires stop { IsPlace self.now.text stop }
        ensures { IfOk result (λ copy. copy ≡ relocated self.now start stop place
            (text_of (arc_value fragment_lines).items) (as_nanos now)) }
    {
        let mut copy = self.copied()?;
        copy.begin_group();
        copy.remove_stretch(start, stop, now)?;
        let there = clip(copy.lines(), place);
        copy.replace_stretch(there, there, fragment_lines, now)?;
        Ok(self.end_group_of(copy))
    }

    // Returns where the selection began, one row further up.
    fn anchor_up(&self) -> Option<(usize, usize)>
        ensures { result ≡ option_map row_up self.now.anchor }
    {
        Some(row_up(self.anchor()?))
    }

    // Returns where the selection began, one row further down.
    fn anchor_down(&self) -> Option<(usize, usize)>
        ensures { result ≡ option_map (row_down (lines self.now.text)) self.now.anchor }
    {
        let anchor = self.anchor()?;
        Some(self.row_down(anchor))
    }

    // Returns the position one row further down, which is at or past the end of the line above where
    // the position is in the text's last line.
    fn row_down(&self, place: (usize, usize)) -> (usize, usize)
        requires { IsPlace self.now.text place }
        ensures { result ≡ row_down (lines self.now.text) place }
    {
        self.text_layout.places_are_small();
        let lines = self.lines();
        let (row, column) = place;
        if row == last_row(lines) {
            return (row + 1, line_length(lines, row.saturating_sub(1)));
        }
        (row + 1, column)
    }
}

fn row_up(place: (usize, usize)) -> (usize, usize)
    ensures { result ≡ row_up place }
{
    (place.0.saturating_sub(1), place.1)
}

// Returns a fragment of these two lines.
fn two_lines(alloc: Global, first: &str, second: &str) -> Result<Arc<Vec<String>>, AllocError>
    ensures { IfOk result (λ fragment_lines. text_of (arc_value fragment_lines).items
        ≡ joined (chars first.now ∷ chars second.now ∷ [])) }
{
    let mut fragment_lines = Vec::new(alloc);
    fragment_lines.push(String::from_str(alloc, first)?)?;
    fragment_lines.push(String::from_str(alloc, second)?)?;
    Ok(Arc::new(alloc, fragment_lines)?)
}
