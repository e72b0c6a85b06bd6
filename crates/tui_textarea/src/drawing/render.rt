//! Drawing into a buffer.
ghost use Rattle.std.specs.Prelude.{◌≡◌, ℕ, IfOk, IsTrue, OnErr, OnOk};
ghost use Rattle.tui_textarea.specs.DrawingPrelude.{widget_state, text_and_layout, IsCaretHit, IsDrawn, IsWidgetRendered, drawn_into, IsCaretVisible, IsDrawnAt, IsPrepared, KeepsOutside, contains};

use super::Drawing;
use super::caret::{caret_has_room, caret_leads_back};
use std::alloc::{AllocError, Global};
use std::mem::replace;
use textarea_document::Document;
use textarea_lines::text_layout::PreparedWidth;
use textarea_screen::screen::{Buffer, Position, Rect};
use textarea_search::search::{MatchCache, Search};
use textarea_view::Surround;
use textarea_view::frame::draw_frame;
use textarea_view::placement::Placement;

impl Drawing {
    /// Draws the document with its surround and the matches of the search pattern into the area of
    /// a buffer. Its layout gets the width inside the block: if that changes how lines wrap, all
    /// are wrapped again, each once. The viewport follows the cursor.
    ///
    /// A cell that nothing is drawn on keeps its text. If the caret is shown, the hit test of its
    /// cell returns the cursor, provided that no character of the cursor's visual row has display
    /// width 0. With left alignment the caret is shown in every area that has room for it. After an
    /// error, cells of the area may have been drawn.
    pub fn render(
        &mut self,
        document: &mut Document,
        surround: &Surround<'_>,
        search: &Search,
        area: Rect,
        buffer: &mut Buffer,
    ) -> Result<(), AllocError>
        ensures ok { OnOk result
            (IsWidgetRendered (widget_state document.old search.now surround.now self.old) area
            (widget_state document.new search.now surround.now self.new)) }
        ensures cells { OnOk result (IsDrawn
            (widget_state document.new search.now surround.now self.new) area buffer.old
            buffer.new) }
        ensures back { OnOk result
            (IsCaretHit (widget_state document.new search.now surround.now self.new)) }
        ensures displayed { OnOk result
            (IsCaretVisible (widget_state document.new search.now surround.now self.new)) }
        ensures outside { KeepsOutside (contains area) buffer.old buffer.new }
        ensures err { OnErr result ((document.new ≡ document.old) × (self.new ≡ self.old)) }
    {
        let inner = surround.inner_area(area);
        let prepared = document.prepare_width(inner.width())?;
        let mut cached = self.take_matches(document.allocator());
        let drawn = draw_at_width(
            self,
            document,
            &prepared,
            surround,
            search,
            &mut cached,
            buffer,
            area,
            inner,
        );
        self.put_matches(cached);
        let placement = drawn?;
        document.put_width(prepared);
        self.put(inner, placement);
        caret_leads_back(document);
        caret_has_room(document);
        Ok(())
    }

    // Stores the viewport, the caret, and the inner area that was drawn into.
    fn put(&mut self, inner: Rect, placement: Placement)
        ensures { self.new ≡ drawn_into self.old inner placement }
    {
        self.viewport = placement.viewport;
        self.corner = Position {
            x: inner.x(),
            y: inner.y(),
        };
        self.height = inner.height();
        self.caret = placement.caret;
    }

    // Takes the cached matches for a drawing, and leaves none until they are put back.
    fn take_matches(&mut self, alloc: Global) -> MatchCache
        ensures { self.new ≡ self.old }
    {
        replace(&mut self.match_cache, MatchCache::new(alloc))
    }

    fn put_matches(&mut self, cached: MatchCache)
        ensures { self.new ≡ self.old }
    {
        self.match_cache = cached;
    }
}

// Draws the document with its rows at a prepared width, and returns the viewport and caret.
fn draw_at_width(
    drawing: &Drawing,
    document: &Document,
    prepared: &PreparedWidth,
    surround: &Surround<'_>,
    search: &Search,
    cached: &mut MatchCache,
    buffer: &mut Buffer,
    area: Rect,
    inner: Rect,
) -> Result<Placement, AllocError>
    requires prepared { IsPrepared (text_and_layout document.now) prepared.now }
    requires within { (x y : ℕ) → IsTrue (contains inner x y) → IsTrue (contains area x y) }
    ensures ok { IfOk result
        (IsDrawnAt (widget_state document.now search.now surround.now drawing.now)
        prepared.now.inner_width area inner buffer.old buffer.new) }
    ensures outside { KeepsOutside (contains area) buffer.old buffer.new }
{
    let frame = drawing.frame(document, document.view_with(prepared), surround, search);
    draw_frame(
        &frame,
        document.allocator(),
        cached,
        buffer,
        area,
        drawing.viewport,
        inner,
    )
}
