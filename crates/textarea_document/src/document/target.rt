//! The targets of cursor moves.
ghost use Rattle.std.specs.Prelude.{◌≡◌, IfSome};
ghost use Rattle.textarea_document.specs.Prelude.{IsPlace, IsDocumentTarget};

use crate::document::Document;
use crate::ends::previous_place;
use crate::paragraphs::{paragraph_back, paragraph_forward};
use crate::words::{word_back, word_end, word_forward};
use textarea_data::cursor::CursorMove;
use textarea_text::places::{clip, last_row, line_end};

impl Document {
    /// Returns the target of the move from the cursor. `None` if there is none: for Forward at the
    /// text's end, for Back at its start, for Up in the first visual row, for Down in the last one,
    /// and for ParagraphBack in the first line. `None` also for InViewport, as a document has no
    /// viewport. Forward reads of a long line only the text from the nearest known position on.
    pub fn target(&self, cursor_move: CursorMove) -> Option<(usize, usize)>
        ensures value { IsDocumentTarget self.now cursor_move result }
        ensures place { IfSome result (IsPlace self.now.text) }
    {
        let lines = self.lines();
        let cursor = self.cursor();
        let (row, column) = cursor;
        match cursor_move {
            CursorMove::Forward => Some(self.symbol_after_cursor()?.end),
            CursorMove::Back => previous_place(lines, cursor),
            CursorMove::Up => self.above(),
            CursorMove::Down => self.below(),
            CursorMove::Head => Some((row, 0)),
            CursorMove::End => Some(line_end(lines, row)),
            CursorMove::Top => Some(clip(lines, (0, column))),
            CursorMove::Bottom => Some(clip(lines, (last_row(lines), column))),
            CursorMove::WordForward => Some(word_forward(lines, cursor)),
            CursorMove::WordEnd => Some(word_end(lines, cursor)),
            CursorMove::WordBack => Some(word_back(lines, cursor)),
            CursorMove::ParagraphForward => Some(paragraph_forward(lines, cursor)),
            CursorMove::ParagraphBack => paragraph_back(lines, cursor),
            CursorMove::Jump(row, column) => {
                Some(clip(lines, (usize::from(row), usize::from(column))))
            }
            CursorMove::InViewport => None,
        }
    }
}
