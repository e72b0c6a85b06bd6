//! One frame of a text area, and the cells that it changes.
ghost use Rattle.std.specs.Prelude.{◌≡◌, ℕ, IfOk, IsTrue, List, OnOk};
ghost use Rattle.textarea_view.specs.Prelude.{AreLinesOf, block_change, inside_change, drawn_lines, placeholder_change, rows_change, IsFrameDrawn, shows_placeholder, FillsArea, HasPlaces, Changes, KeepsOutside, area_of, contains, LineView};

use crate::placement::{Placement, row_area};
use crate::scene::Scene;
use crate::scene::placeholder::draw_placeholder;
use crate::{Surround, Viewport};
use std::alloc::{AllocError, Global};
use std::marker::Model;
use textarea_paint::paint::block::draw_block;
use textarea_screen::screen::{Buffer, Rect};
use textarea_search::search::MatchCache;
use textarea_wrap::wrap::WrapMode;

/// The borrowed parts of a text area that one frame is drawn from.
#[derive(Drop)]
pub struct Frame<'f, 's> {
    /// The visual rows.
    pub scene: Scene<'f>,
    /// The block and the placeholder.
    pub surround: &'f Surround<'s>,
    /// How lines are wrapped.
    pub mode: WrapMode,
    pub is_empty: bool,
}

impl<'f, 's> Model for Frame<'f, 's> {
    ghost use Rattle.textarea_view.specs.Frame.{FrameState};

    ghost Value = { FrameState };

    ghost view = { λ frame. record {
      scene = frame.scene;
      surround = frame.surround.now;
      mode = frame.mode;
      is_empty = frame.is_empty;
    } };
}

impl Frame<'_, '_> {
    // Returns whether the placeholder is drawn instead of the visual rows.
    pub(crate) fn shows_placeholder(&self) -> bool
        ensures { result ≡ shows_placeholder self.now }
    {
        self.is_empty && self.surround.placeholder_rows() > 0
    }

    // Draws the visual rows, over the style of the text area, or the placeholder.
    fn draw_inside(
        &self,
        alloc: Global,
        cached: &mut MatchCache,
        buffer: &mut Buffer,
        viewport: Viewport,
        inner: Rect,
    ) -> Result<(), AllocError>
        requires { HasPlaces self.now.scene }
        ensures ok { OnOk result ((lines : List LineView)
            × AreLinesOf self.now viewport inner (area_of buffer.old) lines
            × Changes buffer.old buffer.new (inside_change self.now viewport inner lines)) }
        ensures outside { KeepsOutside (contains inner) buffer.old buffer.new }
    {
        let scene = &self.scene;
        let rows = row_area(scene.look, viewport, inner);
        if self.shows_placeholder() {
            let placeholder = self.surround.placeholder();
            return draw_placeholder(alloc, buffer, rows, placeholder, scene.cursor_cell());
        }
        let (top, _) = viewport.scroll_top();
        buffer.set_style(inner, scene.look.style);
        scene.draw(alloc, cached, buffer, rows, top)
    }

    // Draws the block, if there is one.
    fn draw_around(&self, buffer: &mut Buffer, area: Rect) -> Result<(), AllocError>
        ensures ok { OnOk result
            (Changes buffer.old buffer.new (block_change self.now.surround.block area)) }
        ensures outside { KeepsOutside (contains area) buffer.old buffer.new }
    {
        match self.surround.block() {
            Some(block) => draw_block(buffer, area, block),
            None => Ok(()),
        }
    }
}

/// Draws the frame. `viewport` is that of the last frame; the returned one follows the cursor. The
/// inner area must be within the area. After out of memory, cells of the area may be changed.
pub fn draw_frame(
    frame: &Frame<'_, '_>,
    alloc: Global,
    cached: &mut MatchCache,
    buffer: &mut Buffer,
    area: Rect,
    viewport: Viewport,
    inner: Rect,
) -> Result<Placement, AllocError>
    requires places { HasPlaces frame.now.scene }
    requires within { (x y : ℕ) → IsTrue (contains inner x y) → IsTrue (contains area x y) }
    ensures ok { IfOk result (IsFrameDrawn frame.now viewport area inner buffer.old buffer.new) }
    ensures outside { KeepsOutside (contains area) buffer.old buffer.new }
{
    let placement = frame.placement(alloc, viewport, inner)?;
    frame.draw_around(buffer, area)?;
    frame.draw_inside(alloc, cached, buffer, placement.viewport, inner)?;
    Ok(placement)
}
