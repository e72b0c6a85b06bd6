//! The width of line numbers, and the width that remains for visual rows.
ghost use Rattle.std.specs.Prelude.{◌≡◌, ◌+◌, ◌≤◌, ℕ, length};
ghost use Rattle.textarea_wrap.specs.Prelude.{decimal, line_number_columns, columns_for_rows};

use crate::wrap::WrapMode;
use std::marker::Model;

/// One column after each row stays free for a caret at the row's end.
const CARET_WIDTH: usize = 1;

/// The widths of line numbers and of wrapped lines, for an inner area and a number of lines.
#[derive(Clone, Copy, Debug, PartialEq, Eq)]
pub struct LayoutMetrics {
    line_number_width: usize,
    wrap_width: Option<usize>,
}

impl Model for LayoutMetrics {
    ghost use Rattle.textarea_wrap.specs.Metrics.{LayoutView};

    ghost Value = { LayoutView };

    ghost view = { λ metrics. record {
      line_number_width = metrics.line_number_width;
      wrap_width = metrics.wrap_width;
    } };

    ghost inverse = { λ view. record {
      line_number_width = view.line_number_width;
      wrap_width = view.wrap_width;
    } };
}

impl LayoutMetrics {
    /// Returns the metrics for `line_count` lines in an inner area of `inner_width` columns.
    pub fn new(
        inner_width: u16,
        line_count: usize,
        line_numbers: bool,
        mode: WrapMode,
    ) -> LayoutMetrics
        ensures numbers { result.line_number_width ≡ line_number_columns line_numbers line_count }
        ensures rows { result.wrap_width
            ≡ columns_for_rows mode inner_width (line_number_columns line_numbers line_count) }
    {
        let line_number_width = if line_numbers {
            num_digits(line_count) as usize + 2
        } else {
            0
        };
        let text_width = (inner_width as usize).saturating_sub(line_number_width);
        let wrap_width = match mode {
            WrapMode::None => None,
            WrapMode::Word | WrapMode::Glyph | WrapMode::WordOrGlyph => {
                Some(text_width.saturating_sub(CARET_WIDTH).max(1))
            }
        };
        LayoutMetrics {
            line_number_width,
            wrap_width,
        }
    }

    /// Returns the columns of a line number with a blank on each side, or 0 without line numbers.
    pub fn line_number_width(&self) -> usize
        ensures { result ≡ self.now.line_number_width }
    {
        self.line_number_width
    }

    /// Returns the width at which lines are wrapped, at least 1, or `None` without wrapping.
    pub fn wrap_width(&self) -> Option<usize>
        ensures { result ≡ self.now.wrap_width }
    {
        self.wrap_width
    }
}

/// Returns the number of decimal digits, 1 for 0. No smaller number has more.
pub fn num_digits(number: usize) -> u8
    ensures value { result ≡ length (decimal number) }
    ensures few { result ≤ 20 }
    ensures most { (smaller : ℕ) → smaller ≤ number → length (decimal smaller) ≤ result }
{
    match number.checked_ilog10() {
        None => 1,
        Some(exponent) => exponent as u8 + 1,
    }
}
