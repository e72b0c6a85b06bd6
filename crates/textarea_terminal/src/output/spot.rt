//! The index of a terminal's cell, with its row and column.
ghost use Rattle.std.specs.Prelude.{◌≡◌, ◌+◌, ◌<◌, ◌^◌};
ghost use Rattle.textarea_terminal.specs.PaintSpot.{IsSpot};

/// The index of a terminal's cell, counted row after row, with its row and column.
#[derive(Clone, Copy)]
pub(super) struct Spot {
    pub(super) index: usize,
    pub(super) row: usize,
    pub(super) column: usize,
}

impl Spot {
    /// The first cell.
    pub(super) fn first(columns: usize) -> Spot
        ensures index { result.index ≡ 0 }
        ensures is { IsSpot columns result }
    {
        let _ = columns;
        Spot {
            index: 0,
            row: 0,
            column: 0,
        }
    }

    /// The cell of an index, in rows of `columns` cells.
    pub(super) fn new(index: usize, columns: usize) -> Spot
        requires { 0 < columns }
        ensures index { result.index ≡ index }
        ensures is { IsSpot columns result }
    {
        Spot {
            index,
            row: index / columns,
            column: index % columns,
        }
    }

    /// The next cell.
    pub(super) fn next(self, columns: usize) -> Spot
        requires some { 0 < columns }
        requires index { self.index < 2 ^ 32 }
        requires is { IsSpot columns self }
        ensures index { result.index ≡ self.index + 1 }
        ensures is { IsSpot columns result }
    {
        if self.column + 1 == columns {
            Spot {
                index: self.index + 1,
                row: self.row + 1,
                column: 0,
            }
        } else {
            Spot {
                index: self.index + 1,
                row: self.row,
                column: self.column + 1,
            }
        }
    }
}
