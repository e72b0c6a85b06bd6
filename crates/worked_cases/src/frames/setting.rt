//! All combinations of wrap modes, alignments, line numbers, masks and blocks.
use std::alloc::AllocError;
use tui_textarea::{Alignment, Block, Borders, Style, TextArea, WrapMode};

const MODES: [WrapMode; 4] = [
    WrapMode::None,
    WrapMode::Word,
    WrapMode::Glyph,
    WrapMode::WordOrGlyph,
];

const ALIGNMENTS: [Alignment; 3] = [Alignment::Left, Alignment::Center, Alignment::Right];

#[derive(Clone, Copy)]
pub struct Setting {
    mode: WrapMode,
    alignment: Alignment,
    has_numbers: bool,
    has_mask: bool,
    has_block: bool,
}

impl Setting {
    /// The number of combinations.
    pub const COUNT: usize = 96;

    /// Returns the combination of this number, counted from 0. After the last one they repeat.
    pub fn numbered(number: usize) -> Setting {
        Setting {
            mode: MODES[number % 4],
            alignment: ALIGNMENTS[number / 4 % 3],
            has_numbers: number / 12 % 2 == 1,
            has_mask: number / 24 % 2 == 1,
            has_block: number / 48 % 2 == 1,
        }
    }

    /// Sets the combination. Line numbers are set after the alignment, which removes them.
    pub fn put(self, area: &mut TextArea<'_>) -> Result<(), AllocError> {
        area.set_wrap_mode(self.mode)?;
        area.set_alignment(self.alignment)?;
        if self.has_numbers {
            area.set_line_number_style(Style::new())?;
        }
        if self.has_mask {
            area.set_mask_char('*');
        }
        if self.has_block {
            area.set_block(Block::new().borders(Borders::ALL));
        }
        Ok(())
    }
}
