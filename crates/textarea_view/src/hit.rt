//! The position in the text that a cell of the screen shows.
ghost use Rattle.std.specs.Prelude.{◌≡◌, ◌-◌, ◌<◌, ◌≤◌, chars, length, IfOk, IfSome, IsOk, Some};
ghost use Rattle.textarea_util.specs.Limit.{size_limit};
ghost use Rattle.textarea_screen_map.specs.VisualRows.{greatest_column};
ghost use Rattle.textarea_view.specs.Prelude.{VisualRow, IsHitInRows, IsHitOf, row_total, HasPlaces, Left, IsPlaceOf, hit_row};

use crate::Viewport;
use crate::frame::Frame;
use crate::placement::row_view;
use crate::scene::Scene;
use std::alloc::{AllocError, Global};
use textarea_screen::screen::{Position, Rect};
use textarea_screen_map::layout::VisualPosition;

impl Frame<'_, '_> {
    /// Returns the position (row, column) that a cell of the inner area shows in this viewport, or
    /// `None` for a cell outside. A cell below the last visual row shows that row, and one after a
    /// row shows the row's greatest cursor column. With a placeholder each cell shows the start.
    pub fn hit(
        &self,
        alloc: Global,
        viewport: Viewport,
        inner: Rect,
        position: Position,
    ) -> Result<Option<(usize, usize)>, AllocError>
        requires { HasPlaces self.now.scene }
        ensures hit { IfOk result (IsHitOf self.now viewport inner position.x position.y) }
        ensures place { IfOk result (λ found.
            IfSome found (IsPlaceOf self.now.scene.rows.lines)) }
        ensures left { self.now.scene.look.alignment ≡ Left → IsOk result }
    {
        let last_row = self.scene.rows.row_count() - 1;
        let Some(row) = viewport.hit_row(inner, last_row, position) else {
            return Ok(None);
        };
        if self.shows_placeholder() {
            return Ok(Some((0, 0)));
        }
        Ok(Some(hit_in_row(alloc, &self.scene, viewport, inner, row, position)?))
    }
}

// Returns the position that a cell of the inner area shows, in the given visual row.
fn hit_in_row(
    alloc: Global,
    scene: &Scene<'_>,
    viewport: Viewport,
    inner: Rect,
    row: usize,
    position: Position,
) -> Result<(usize, usize), AllocError>
    requires places { HasPlaces scene.now }
    requires row { row < row_total scene.now.rows.rows }
    requires hit { hit_row viewport.row inner (row_total scene.now.rows.rows - 1)
        position.x position.y ≡ Some row }
    ensures hit { IfOk result (IsHitInRows scene.now viewport inner position.x position.y) }
    ensures place { IfOk result (IsPlaceOf scene.now.rows.lines) }
    ensures left { scene.now.look.alignment ≡ Left → IsOk result }
{
    let view = row_view(alloc, scene, viewport, inner, row)?;
    let displayed = scene.rows.row_at(row);
    let most = most_columns(displayed.text, scene.rows.tab_len());
    let column = view.hit_column(position, most);
    Ok(scene.rows.place_near(VisualPosition { row, column }))
}

// Returns a column that is not before the greatest cursor column of a row of this text, without a
// walk: no byte takes more than 255 columns.
fn most_columns(text: &str, tab_len: u8) -> usize
    requires { length text.now < size_limit }
    ensures { (row : VisualRow) → row.text ≡ chars text.now → greatest_column tab_len row ≤ result }
{
    text.len() * 255
}
