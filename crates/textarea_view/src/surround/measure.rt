//! The room that the block takes of an area, and the height that a text needs.
ghost use Rattle.std.specs.Prelude.{◌≡◌, ◌≤◌, ℕ, IsTrue};
ghost use Rattle.textarea_view.specs.Prelude.{contains, IsInner, AreBounds, chrome_of, measure_of, visible_row_count, width_inside};

use crate::surround::Surround;
use textarea_data::measure::TextAreaMeasure;
use textarea_screen::screen::Rect;

impl<'a> Surround<'a> {
    /// Returns the area inside the block, or all of the area without a block.
    pub fn inner_area(&self, area: Rect) -> Rect
        ensures inner { IsInner self.now.block area result }
        ensures within { (x y : ℕ) → IsTrue (contains result x y) → IsTrue (contains area x y) }
    {
        match &self.block {
            Some(block) => block.inner(area),
            None => area,
        }
    }

    /// Returns the number of columns inside the block, if there is one, of an area of this width.
    pub fn inner_width(&self, width: u16) -> u16
        ensures { result ≡ width_inside self.now.block width }
    {
        match &self.block {
            Some(block) => block.inner(Rect::new(0, 0, width, u16::MAX)).width(),
            None => width,
        }
    }

    /// Returns how many of 65535 rows of an area of this width the block takes, 0 without a block.
    pub fn chrome(&self, width: u16) -> u16
        ensures { result ≡ chrome_of self.now.block }
    {
        match &self.block {
            Some(block) => u16::MAX - block.inner(Rect::new(0, 0, width, u16::MAX)).height(),
            None => 0,
        }
    }

    /// Returns the measured heights, in an area of this width, of a text that has `rows` visual
    /// rows at the inner width, and that is empty or not.
    pub fn measure(&self, width: u16, rows: usize, is_empty: bool) -> TextAreaMeasure
        ensures value { result ≡ measure_of self.now rows is_empty }
        ensures bounds { AreBounds result.min_rows result.max_rows }
        ensures within { (result.min_rows ≤ result.preferred_rows)
            × (result.preferred_rows ≤ result.max_rows) }
    {
        let chrome = self.chrome(width);
        let displayed = self.visible_rows(rows, is_empty);
        let content_rows = displayed.min(usize::from(u16::MAX)) as u16;
        let min_rows = self.min_rows.max(chrome.saturating_add(1));
        let max_rows = self.max_rows.max(min_rows);
        TextAreaMeasure {
            content_rows,
            preferred_rows: content_rows
                .saturating_add(chrome)
                .max(min_rows)
                .min(max_rows),
            min_rows,
            max_rows,
        }
    }

    // Returns the number of rows to draw: those of the placeholder if the text is empty and the
    // placeholder has lines, and else `rows`.
    fn visible_rows(&self, rows: usize, is_empty: bool) -> usize
        ensures { result ≡ visible_row_count self.now.placeholder.lines rows is_empty }
    {
        if is_empty && self.placeholder_rows() > 0 {
            self.placeholder_rows()
        } else {
            rows
        }
    }
}
