ghost use Rattle.std.specs.Prelude.{◌≡◌, ◌≤◌, [], ◌∷◌, length, map};
ghost use Rattle.textarea_screen.specs.Cell.{cell_view};
ghost use Rattle.textarea_c_data.specs.Cells.{plain_cell, plain_cells, plain_screen_cell};
ghost use Rattle.textarea_c_data.specs.Copied.{copied_over, written_at};

use crate::color::CColor;
use crate::slices::copied;
use textarea_screen::screen;
use textarea_screen::screen::Buffer;

/// A drawn cell: its colours and modifiers, the number of bytes of its text, at most 65535, and the
/// first of these bytes, with zeroes after the text. `ta_screen_symbol` returns a longer text as a
/// whole.
#[repr(C)]
#[derive(Clone, Copy, Debug, PartialEq, Eq)]
pub struct CCell {
    pub fg: CColor,
    pub bg: CColor,
    pub modifier: u16,
    pub bytes: u16,
    pub symbol: [u8; 24],
}

impl CCell {
    /// Writes a cell here.
    pub fn set(&mut self, cell: &screen::Cell)
        ensures { self.new ≡ plain_cell (cell_view cell.now) }
    {
        self.fg = CColor::of(Some(cell.fg));
        self.bg = CColor::of(Some(cell.bg));
        self.modifier = cell.modifier.0;
        self.symbol = [0; 24];
        let symbol = cell.symbol().as_bytes();
        self.bytes = symbol.len().min(65535) as u16;
        if let [byte] = symbol {
            self.symbol[0] = *byte;
        } else {
            copied(symbol, &mut self.symbol);
        }
    }
}

/// Writes the cells of a buffer, row after row, as many as there is room for, and returns the
/// number of all.
#[tactic(auto, using(crate::proofs::Cells::cells_are))]
pub fn write_cells(buffer: &Buffer, out: &mut [CCell]) -> usize
    ensures needed { result ≡ length (plain_cells buffer.now) }
    ensures out { out.new ≡ copied_over out.old (plain_cells buffer.now) }
{
    let cells = buffer.cells();
    write_all(cells, out);
    cells.len()
}

// Writes the cells, as many as there is room for.
fn write_all(cells: &[screen::Cell], out: &mut [CCell])
    ensures { out.new ≡ copied_over out.old (map plain_screen_cell cells.now) }
{
    for (index, cell) in cells.iter().enumerate() {
        write_at(cell, index, out);
    }
}

// Writes a cell to an index of the slice, if there is room for it.
#[tactic(auto, using(crate::proofs::Copied::set_is_written, crate::proofs::Copied::written_past))]
fn write_at(cell: &screen::Cell, index: usize, out: &mut [CCell])
    ensures out { out.new ≡ written_at index out.old (plain_screen_cell cell.now ∷ []) }
    ensures room { length out.old ≤ 18446744073709551615 }
{
    if index < out.len() {
        out[index].set(cell);
    }
}
