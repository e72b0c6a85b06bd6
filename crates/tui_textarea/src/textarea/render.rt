//! Drawing into a buffer, the caret, the position that a cell shows, and scrolling.
ghost use Rattle.std.specs.Prelude.{◌≡◌, IfOk, IfSome, IsOk, OnErr, OnOk};
ghost use Rattle.std.specs.Option.{option_map};
ghost use Rattle.tui_textarea.specs.Prelude.{IsCursorAtCaret, IsCaretHit, IsHitTest, IsDrawn, IsCaretVisible, cell_of_position, KeepsOutside, contains, Left, IsPlace, IsRendered, widget_of, IsScrolled, IsScrolledWith};

use crate::textarea::TextArea;
use std::alloc::AllocError;
use textarea_data::cursor::CursorMove;
use textarea_data::scroll::Scrolling;
use textarea_screen::screen::{Buffer, Position, Rect};
use textarea_view::Viewport;

impl TextArea<'_> {
    /// Draws the text area into an area of a buffer: the block, and inside it the visual rows, or
    /// the placeholder if the text is empty and the placeholder has lines. The viewport follows the
    /// cursor. Lines are wrapped again, each once, only if the inner width changes the layout.
    ///
    /// A cell that nothing is drawn on keeps its text, and no cell outside the area changes. If the
    /// caret is shown, `cursor_at_position` of its cell returns the cursor, provided that no
    /// character of the cursor's visual row has display width 0. With left alignment the caret is
    /// shown in every area that has room for it. After an error, cells of the area may have been
    /// drawn, but the text area is unchanged.
    pub fn render(&mut self, area: Rect, buffer: &mut Buffer) -> Result<(), AllocError>
        ensures ok { OnOk result (IsRendered self.old area self.new) }
        ensures cells { OnOk result (IsDrawn (widget_of self.new) area buffer.old buffer.new) }
        ensures outside { KeepsOutside (contains area) buffer.old buffer.new }
        ensures back { OnOk result (IsCaretHit (widget_of self.new)) }
        ensures displayed { OnOk result (IsCaretVisible (widget_of self.new)) }
        ensures err { OnErr result (self.new ≡ self.old) }
    {
        self.drawing.render(
            &mut self.document,
            &self.surround,
            &self.search,
            area,
            buffer,
        )
    }

    /// Returns the cursor's cell at the last `render`, for the terminal's own cursor; `None` if the
    /// cursor was outside the viewport, and before the first `render`.
    pub fn rendered_cursor_position(&self) -> Option<Position>
        ensures { option_map cell_of_position result ≡ self.now.drawing.caret }
    {
        self.drawing.caret()
    }

    /// Returns the position of the text that a cell of the screen shows, in the inner area of the
    /// last `render`, for the present text and viewport. A cell below the last visual row counts as
    /// one in that row, and a cell past a row's end as its greatest cursor column; with a
    /// placeholder each cell shows the text's start. `None` for a cell outside the inner area.
    /// Right after a `render` the caret's cell gives the cursor, provided that no character of the
    /// cursor's visual row has display width 0. Left alignment needs no memory.
    pub fn cursor_at_position(
        &self,
        position: Position,
    ) -> Result<Option<(usize, usize)>, AllocError>
        ensures hit { IfOk result (IsHitTest (widget_of self.now) position.x position.y) }
        ensures place { IfOk result (λ found. IfSome found (IsPlace self.now.document.text)) }
        ensures back { IfOk result
            (IsCursorAtCaret (widget_of self.now) position.x position.y) }
        ensures left { self.now.drawing.look.alignment ≡ Left → IsOk result }
    {
        self.drawing
            .hit(&self.document, &self.surround, &self.search, position)
    }

    /// Returns the viewport: the visible rows and columns, and the size of the last drawn area.
    pub fn viewport(&self) -> &Viewport
        ensures { result.now ≡ self.now.drawing.viewport }
    {
        self.drawing.viewport()
    }

    /// Scrolls the viewport, and moves the cursor into it, to the nearest visible row and column.
    /// An open selection follows the cursor, and a run of typing ends. A page has the height of the
    /// last `render`, 0 rows before the first one.
    pub fn scroll(&mut self, scrolling: Scrolling)
        ensures { IsScrolled self.old scrolling self.new }
    {
        self.scroll_with_shift(scrolling, self.is_selecting());
    }

    // Scrolls, and moves the cursor with or without Shift.
    pub(crate) fn scroll_with_shift(&mut self, scrolling: Scrolling, shift: bool)
        ensures { IsScrolledWith self.old shift scrolling self.new }
    {
        self.drawing.scroll(scrolling);
        self.move_with_shift(CursorMove::InViewport, shift);
    }
}
