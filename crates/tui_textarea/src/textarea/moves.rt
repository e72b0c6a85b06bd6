//! Moves of the cursor.
ghost use Rattle.std.specs.Prelude.{◌≡◌, IfSome};
ghost use Rattle.textarea_data.specs.declared.range.AtomicCursorBias.TheVariants.{Forward};
ghost use Rattle.tui_textarea.specs.Prelude.{IsPlace, IsMoved, gone_to, IsMovedTo, IsMovedWith, IsTarget, anchor_with, bias_of, settled};

use crate::textarea::TextArea;
use textarea_data::cursor::CursorMove;
use textarea_data::range::AtomicCursorBias;
use textarea_ranges::lookup::move_out;
use textarea_text::places::clip;

impl TextArea<'_> {
    /// Moves the cursor. An open selection follows it, and a run of typing ends. Up and Down move
    /// to the neighbouring visual row, at the cursor's display column or, if that row is shorter,
    /// at its greatest cursor column. A target strictly inside an atomic range is moved to the
    /// range's start for Back, Up, Head, Top, WordBack and ParagraphBack, and to its end for other
    /// moves; so is one inside a cluster, if the cursor goes by clusters. InViewport moves to the
    /// nearest visible row and column. A move without a target
    /// changes nothing: Forward at the text's end, Back at its start, Up in the first visual row,
    /// Down in the last one, and ParagraphBack in the first line.
    pub fn move_cursor(&mut self, cursor_move: CursorMove)
        ensures { IsMoved self.old cursor_move self.new }
    {
        self.move_with_shift(cursor_move, self.is_selecting());
    }

    /// Moves the cursor to the position (row, column), or to the nearest one in the text: the row is
    /// at most the last, the column at most its line's length. A position strictly inside an atomic
    /// range is moved to the range's end. An open selection follows the cursor, and a run of typing
    /// ends. Unlike `CursorMove::Jump` it reaches every row.
    pub fn go_to(&mut self, place: (usize, usize))
        ensures { self.new ≡ settled Forward (gone_to self.old place) }
    {
        let nearest = clip(self.document.lines(), place);
        let target = move_out(self.document.ranges(), nearest, AtomicCursorBias::Forward);
        let anchor = self.anchor_with(self.is_selecting());
        self.document.move_to(target, anchor);
        self.settle(AtomicCursorBias::Forward);
    }

    // Moves the cursor. With Shift an open selection stays open, or one begins at the old cursor;
    // without Shift the selection is dropped.
    pub(crate) fn move_with_shift(&mut self, cursor_move: CursorMove, shift: bool)
        ensures { IsMovedWith self.old shift cursor_move self.new }
    {
        self.move_to_target(cursor_move, shift);
        self.settle(bias_of(cursor_move));
    }

    // The same, but for clusters.
    fn move_to_target(&mut self, cursor_move: CursorMove, shift: bool)
        ensures { IsMovedTo self.old shift cursor_move self.new }
    {
        if let Some(place) = self.target_of(cursor_move) {
            let place = move_out(self.document.ranges(), place, bias_of(cursor_move));
            let anchor = self.anchor_with(shift);
            self.document.move_to(place, anchor);
        }
    }

    // Returns where the selection begins after a move with or without Shift, if it leaves one.
    fn anchor_with(&self, shift: bool) -> Option<(usize, usize)>
        ensures value { result ≡ anchor_with shift self.now.document }
        ensures place { IfSome result (IsPlace self.now.document.text) }
    {
        if !shift {
            return None;
        }
        match self.document.anchor() {
            Some(anchor) => Some(anchor),
            None => Some(self.document.cursor()),
        }
    }

    // Returns the target of the move before it is moved out of an atomic range.
    fn target_of(&self, cursor_move: CursorMove) -> Option<(usize, usize)>
        ensures place { IfSome result (IsPlace self.now.document.text) }
        ensures target { IsTarget self.now cursor_move result }
    {
        match cursor_move {
            CursorMove::InViewport => Some(self.drawing.nearest_visible_place(&self.document)),
            _ => self.document.target(cursor_move),
        }
    }
}

// Returns which end of an atomic range replaces a target strictly inside it.
fn bias_of(cursor_move: CursorMove) -> AtomicCursorBias
    ensures { result ≡ bias_of cursor_move }
{
    match cursor_move {
        CursorMove::Back
        | CursorMove::Up
        | CursorMove::Head
        | CursorMove::Top
        | CursorMove::WordBack
        | CursorMove::ParagraphBack => AtomicCursorBias::Backward,
        _ => AtomicCursorBias::Forward,
    }
}
