//! The viewport and the caret's cell after a frame is drawn. The caret is the cursor on the screen.
ghost use Rattle.std.specs.Prelude.{◌≡◌, ◌<◌, IfOk, IsOk};
ghost use Rattle.textarea_view.specs.Prelude.{option_map, number_width, IsPlacement, IsPlacementInRows, HasRowView, corner_caret, placed_at_corner, row_area, row_view, viewport_at, cell_of_position, row_total, HasPlaces, Left};

use crate::frame::Frame;
use crate::look::Look;
use crate::scene::Scene;
use crate::{RowView, Viewport};
use std::alloc::{AllocError, Global};
use std::marker::Model;
use textarea_paint::paint::row::RowArea;
use textarea_screen::screen::{Alignment, Position, Rect, Style};
use textarea_screen_map::layout::VisualPosition;
use textarea_wrap::layout::LayoutMetrics;
use textarea_wrap::wrap::WrapMode;

/// A viewport, and the cell of the caret if it is in view.
#[derive(Drop)]
pub struct Placement {
    /// The visual rows and columns in view.
    pub viewport: Viewport,
    /// The cell of the caret, if it is in view.
    pub caret: Option<Position>,
}

impl Model for Placement {
    ghost use Rattle.std.specs.Option.{option_map};
    ghost use Rattle.textarea_view.specs.Placements.{cell_of_position};
    ghost use Rattle.textarea_view.specs.Placements.{Placement as Placed};

    ghost Value = { Placed };

    ghost view = { λ placement. record {
      viewport = placement.viewport;
      caret = option_map cell_of_position placement.caret;
    } };
}

impl Frame<'_, '_> {
    // Returns the new viewport and the caret's cell. `viewport` is that of the last frame.
    pub(crate) fn placement(
        &self,
        alloc: Global,
        viewport: Viewport,
        inner: Rect,
    ) -> Result<Placement, AllocError>
        requires { HasPlaces self.now.scene }
        ensures { IfOk result (λ placement. IsPlacement self.now viewport inner placement) }
    {
        if self.shows_placeholder() {
            return Ok(Placement {
                viewport: Viewport::at_start(inner),
                caret: corner_caret(inner),
            });
        }
        placement_in_rows(alloc, &self.scene, self.mode, viewport, inner)
    }
}

// Does the same for a frame of visual rows.
fn placement_in_rows(
    alloc: Global,
    scene: &Scene<'_>,
    mode: WrapMode,
    viewport: Viewport,
    inner: Rect,
) -> Result<Placement, AllocError>
    requires { HasPlaces scene.now }
    ensures { IfOk result (λ placement. IsPlacementInRows scene.now mode viewport inner placement) }
{
    let visual = scene.rows.visual_position(scene.cursor);
    let viewport = viewport_at(mode, viewport, inner, number_width(scene), visual);
    let view = row_view(alloc, scene, viewport, inner, visual.row)?;
    Ok(Placement {
        viewport,
        caret: view.caret(visual.row, visual.column),
    })
}

// Returns the columns that a visual row has in the inner area. With left alignment it does not
// build the row, and it allocates nothing.
pub(crate) fn row_view(
    alloc: Global,
    scene: &Scene<'_>,
    viewport: Viewport,
    inner: Rect,
    row: usize,
) -> Result<RowView, AllocError>
    requires places { HasPlaces scene.now }
    requires row { row < row_total scene.now.rows.rows }
    ensures view { IfOk result (λ view. HasRowView scene.now viewport inner row view) }
    ensures left { scene.now.look.alignment ≡ Left → IsOk result }
{
    let columns = number_width(scene);
    let rows = row_area(scene.look, viewport, inner);
    let start = scene.row_start(alloc, rows, row)?;
    Ok(view_from(rows.alignment, viewport, inner, start, columns))
}

// Returns the columns of a row that begins `start` columns after the left edge of the inner area.
fn view_from(
    alignment: Alignment,
    viewport: Viewport,
    inner: Rect,
    start: u16,
    columns: usize,
) -> RowView
    ensures { result ≡ row_view alignment viewport inner start columns }
{
    match alignment {
        Alignment::Left => RowView::at_left(viewport, inner, columns),
        _ => RowView::at_offset(viewport, inner, start, columns),
    }
}

// Returns the rows of the inner area, from the viewport's first column on.
pub(crate) fn row_area(look: Look, viewport: Viewport, inner: Rect) -> RowArea
    ensures { result ≡ row_area look inner viewport.column }
{
    let (_, left) = viewport.scroll_top();
    RowArea {
        area: inner,
        alignment: look.alignment,
        left,
        style: Style::new(),
    }
}

// Returns the number of columns that line numbers take, 0 without them.
fn number_width(scene: &Scene<'_>) -> usize
    ensures { result ≡ number_width scene.now }
{
    let line_count = scene.rows.lines().len();
    LayoutMetrics::new(0, line_count, scene.line_numbers, WrapMode::None).line_number_width()
}

// Returns the viewport once the cursor is in view at this visual position.
fn viewport_at(
    mode: WrapMode,
    viewport: Viewport,
    inner: Rect,
    number_width: usize,
    visual: VisualPosition,
) -> Viewport
    ensures { result ≡ viewport_at mode viewport inner number_width visual }
{
    let VisualPosition { row, column } = visual;
    match mode {
        WrapMode::None => viewport.showing_row_and_column(inner, row, column, number_width),
        _ => viewport.showing_row(inner, row),
    }
}

// Returns the corner of an area that has a cell.
fn corner_caret(inner: Rect) -> Option<Position>
    ensures { option_map cell_of_position result ≡ corner_caret inner }
{
    if inner.width() == 0 || inner.height() == 0 {
        None
    } else {
        Some(Position {
            x: inner.x(),
            y: inner.y(),
        })
    }
}
