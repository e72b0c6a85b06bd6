//! Paints buffers on a terminal.
ghost use Rattle.std.specs.Prelude.{◌≡◌, ℕ, ◌*◌, ◌<◌, ◌≤◌, false, map, replicate, [], vec_len, IfOk, IfSome, OnOk, OnErr, IsTrue, Some, None};
ghost use Rattle.textarea_screen.specs.Cell.{cell_view, fresh_cell};
ghost use Rattle.textarea_terminal.specs.PaintCells.{are_whole};

use super::area::{caret_in, fresh_cells};
use super::colors::Colors;
use super::frame::fill;
use super::whole::{write_first_frame, write_frame};
use std::alloc::{AllocError, Global};
use std::mem;
use textarea_screen::screen::{Buffer, Cell, Position, Rect};

/// Paints buffers on a terminal: writes the cells that differ from the buffer before.
#[derive(Drop)]
pub struct Painter {
    area: Rect,
    /// The colours that the terminal has.
    colors: Colors,
    /// The cells that the terminal shows, if `is_known`.
    visible: Vec<Cell>,
    /// Memory for the cells of the next frame.
    next: Vec<Cell>,
    /// Memory for the bytes of a frame.
    bytes: Vec<u8>,
    caret: Option<usize>,
    is_known: bool,
    ghost visible_full: { vec_len visible ≡ area.height * area.width },
    ghost next_full: { vec_len next ≡ area.height * area.width },
    ghost whole: { IsTrue (are_whole area.width 0 0 (map cell_view visible.items)) },
}

impl Painter {
    ghost use Rattle.textarea_terminal.specs.Paint.{Wrote, Paints};
    ghost use Rattle.textarea_terminal.specs.PaintCells.{frame_of_buffer};
    ghost use Rattle.textarea_terminal.specs.Painter.{painter_area, painter_colors, painted};
    ghost use Rattle.textarea_terminal.specs.PaintArea.{cell_count, frame_in};

    /// Returns a painter for a terminal whose content is unknown. The terminal shows the cells of
    /// `area`: the first of them is in the terminal's first column and row.
    pub fn new(alloc: Global, area: Rect) -> Result<Painter, AllocError>
        ensures area { IfOk result (λ painter. painter_area painter ≡ area) }
        ensures colors { IfOk result (λ painter. painter_colors painter ≡ Colors.True) }
        ensures painted { IfOk result (λ painter. painted painter ≡ None) }
    {
        let rows = usize::from(area.height);
        let columns = usize::from(area.width);
        let count = rows * columns;
        let visible = fresh_cells(alloc, count)?;
        let next = fresh_cells(alloc, count)?;
        Ok(Painter {
            area,
            colors: Colors::True,
            visible,
            next,
            bytes: Vec::new(alloc),
            caret: None,
            is_known: false,
        })
    }

    /// Appends the bytes that make the terminal show a buffer and a caret, after the frame before.
    ///
    /// Terminals differ in the columns of some clusters, such as families, flags and jamo: such a
    /// cluster's cells show it or its first part, and then blanks, and all other cells are exact on
    /// each terminal that gives it at most the columns that are counted. A character of ambiguous
    /// width counts as one column.
    ///
    /// A cell that the buffer doesn't have is shown as a fresh one. A text is shown as a blank if
    /// it is not one grapheme cluster of at least one column, if it doesn't end in its row, or if
    /// the texts of the cells that it covers are not empty. A caret outside of the area isn't
    /// shown. Out of memory, the painter and `out` are unchanged.
    pub fn paint(
        &mut self,
        buffer: &Buffer,
        caret: Option<Position>,
        out: &mut Vec<u8>,
    ) -> Result<(), AllocError>
        ensures area { painter_area self.new ≡ painter_area self.old }
        ensures colors { painter_colors self.new ≡ painter_colors self.old }
        ensures painted { OnOk result
            (painted self.new ≡ Some (frame_in (painter_colors self.old) (painter_area self.old)
            buffer.now caret)) }
        ensures wrote { OnOk result (Wrote out.old.items out.new.items
            (Paints (painter_area self.old).width (cell_count (painter_area self.old))
            (painted self.old)
            (frame_in (painter_colors self.old) (painter_area self.old) buffer.now caret))) }
        // A frame that is shown already takes no byte.
        ensures unchanged { painted self.old
            ≡ Some (frame_in (painter_colors self.old) (painter_area self.old) buffer.now caret)
            → out.new.items ≡ out.old.items }
        ensures unpainted { OnErr result (painted self.new ≡ painted self.old) }
        ensures unwritten { OnErr result (out.new.items ≡ out.old.items) }
    {
        let index = caret_in(self.area, caret);
        self.fill_next(buffer)?;
        self.write(index)?;
        out.extend_from_slice(self.bytes.as_slice())?;
        self.swap_frames(index);
        Ok(())
    }

    /// Changes the colours that the terminal has, which are all at first, and forgets what it shows.
    pub fn set_colors(&mut self, colors: Colors)
        ensures area { painter_area self.new ≡ painter_area self.old }
        ensures colors { painter_colors self.new ≡ colors }
        ensures painted { painted self.new ≡ None }
    {
        self.colors = colors;
        self.is_known = false;
    }

    /// Forgets what the terminal shows, and its modes, such as margins or insertion. The next `paint`
    /// brings it to the modes that it has at first, and erases it.
    pub fn reset(&mut self)
        ensures area { painter_area self.new ≡ painter_area self.old }
        ensures colors { painter_colors self.new ≡ painter_colors self.old }
        ensures painted { painted self.new ≡ None }
    {
        self.is_known = false;
    }

    /// Changes the area, and forgets what the terminal shows. Call it at each report of a size, also
    /// of the same one: the terminal may have had another in between, and have lost rows. Out of
    /// memory, nothing changes.
    pub fn resize(&mut self, area: Rect) -> Result<(), AllocError>
        ensures area { OnOk result (painter_area self.new ≡ area) }
        ensures colors { painter_colors self.new ≡ painter_colors self.old }
        ensures painted { OnOk result (painted self.new ≡ None) }
        ensures err { OnErr result (self.new ≡ self.old) }
    {
        if area == self.area {
            self.is_known = false;
            return Ok(());
        }
        let alloc = *self.bytes.allocator();
        let colors = self.colors;
        *self = Painter::new(alloc, area)?;
        self.colors = colors;
        Ok(())
    }

    /// Fills the cells of the next frame.
    fn fill_next(&mut self, buffer: &Buffer) -> Result<(), AllocError>
        ensures area { self.new.area ≡ self.old.area }
        ensures colors { self.new.colors ≡ self.old.colors }
        ensures painted { painted self.new ≡ painted self.old }
        ensures filled { OnOk result
            (map cell_view self.new.next.items
            ≡ frame_of_buffer self.old.colors self.old.area buffer.now) }
    {
        let alloc = *self.next.allocator();
        fill(alloc, &mut self.next, self.colors, self.area, buffer)
    }

    /// Writes the bytes from the frame before to the next one.
    fn write(&mut self, caret: Option<usize>) -> Result<(), AllocError>
        requires caret { IfSome caret (λ index. index < cell_count self.old.area) }
        requires whole { IsTrue
            (are_whole self.old.area.width 0 0 (map cell_view self.old.next.items)) }
        ensures area { self.new.area ≡ self.old.area }
        ensures colors { self.new.colors ≡ self.old.colors }
        ensures next { self.new.next ≡ self.old.next }
        ensures painted { painted self.new ≡ painted self.old }
        ensures wrote { OnOk result (Wrote [] self.new.bytes.items
            (Paints self.old.area.width (cell_count self.old.area) (painted self.old)
            (record { cells = map cell_view self.old.next.items; caret = caret }))) }
    {
        self.bytes.clear();
        let columns = usize::from(self.area.width);
        let next = self.next.as_slice();
        if self.is_known {
            let visible = self.visible.as_slice();
            write_frame(&mut self.bytes, columns, visible, self.caret, next, caret)
        } else {
            write_first_frame(&mut self.bytes, columns, next, caret)
        }
    }

    /// Makes the next frame the shown one.
    fn swap_frames(&mut self, caret: Option<usize>)
        requires whole { IsTrue
            (are_whole self.old.area.width 0 0 (map cell_view self.old.next.items)) }
        ensures area { self.new.area ≡ self.old.area }
        ensures colors { self.new.colors ≡ self.old.colors }
        ensures painted { painted self.new
            ≡ Some (record { cells = map cell_view self.old.next.items; caret = caret }) }
    {
        mem::swap(&mut self.visible, &mut self.next);
        self.caret = caret;
        self.is_known = true;
    }
}
