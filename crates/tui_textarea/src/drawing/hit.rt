//! The position that a cell of the screen shows, and the visible position nearest to the cursor.
ghost use Rattle.std.specs.Prelude.{◌≡◌, IfOk, IfSome, IsOk};
ghost use Rattle.tui_textarea.specs.DrawingPrelude.{widget_state, IsCursorAtCaret, IsHitTest, IsNearestVisible, IsLastArea, Left, IsPlace};

use super::Drawing;
use super::caret::caret_leads_back;
use std::alloc::AllocError;
use textarea_document::Document;
use textarea_screen::screen::{Position, Rect};
use textarea_screen_map::layout::VisualPosition;
use textarea_search::search::Search;
use textarea_view::Surround;

impl Drawing {
    /// Returns the position of the text that a cell of the screen shows, in the inner area of the
    /// last drawing, with the present text and viewport. A cell below the last visual row counts as
    /// one in that row, and a cell past a row's end as its greatest cursor column; with a
    /// placeholder each cell shows the text's start. `None` for a cell outside the inner area.
    /// Right after a drawing the caret's cell gives the cursor, provided that no character of the
    /// cursor's visual row has display width 0.
    pub fn hit(
        &self,
        document: &Document,
        surround: &Surround<'_>,
        search: &Search,
        position: Position,
    ) -> Result<Option<(usize, usize)>, AllocError>
        ensures hit { IfOk result
            (IsHitTest (widget_state document.now search.now surround.now self.now)
            position.x position.y) }
        ensures place { IfOk result (λ found. IfSome found (IsPlace document.now.text)) }
        ensures back { IfOk result (IsCursorAtCaret
            (widget_state document.now search.now surround.now self.now) position.x position.y) }
        ensures left { self.now.look.alignment ≡ Left → IsOk result }
    {
        caret_leads_back(document);
        let frame = self.frame(document, document.view(), surround, search);
        let inner = self.last_area(document);
        frame.hit(document.allocator(), self.viewport, inner, position)
    }

    fn last_area(&self, document: &Document) -> Rect
        ensures { IsLastArea document.now self.now result }
    {
        let width = document.layout_settings().inner_width;
        Rect::new(self.corner.x, self.corner.y, width, self.height)
    }

    /// Returns the visible position nearest to the cursor: in the nearest visible visual row, at
    /// the nearest visible display column; the cursor itself if it is visible.
    pub fn nearest_visible_place(&self, document: &Document) -> (usize, usize)
        ensures place { IsPlace document.now.text result }
        ensures inside { IsNearestVisible document.now self.now.viewport result }
    {
        let rows = document.view();
        let cursor = document.cursor();
        let visual = rows.visual_position(cursor);
        let row = self.viewport.clamp_row(visual.row, rows.row_count() - 1);
        let column = self
            .viewport
            .clamp_column(visual.column, rows.greatest_column(row));
        let nearest = VisualPosition { row, column };
        if nearest == visual {
            cursor
        } else {
            rows.place_near(nearest)
        }
    }
}
