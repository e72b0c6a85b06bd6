//! The line number in front of a row.
ghost use Rattle.std.specs.Prelude.{◌≡◌, ◌≤◌, length, string_bytes, IfOk};
ghost use Rattle.std.specs.Fmt.{decimal};
ghost use Rattle.textarea_highlight.specs.Numbers.{number_text};

use std::alloc::{AllocError, Global};
use textarea_text::util::spaces;
use textarea_wrap::layout::num_digits;

/// Returns the number at the right of a field of `width` columns, with a space on each side.
pub(super) fn number_text(alloc: Global, number: usize, width: u8) -> Result<String, AllocError>
    requires fits { length (decimal number) ≤ width }
    requires room { width ≤ 253 }
    ensures { IfOk result (λ text. string_bytes text ≡ number_text number width) }
{
    let before = spaces(width + 1 - num_digits(number));
    let mut text = String::with_capacity(alloc, usize::from(width) + 2)?;
    text.push_str(before)?;
    write!(text, "{number}")?;
    text.push(' ')?;
    Ok(text)
}
