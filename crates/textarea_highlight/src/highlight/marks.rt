//! A known position of a row, from which the row is read.
ghost use Rattle.std.specs.Prelude.{◌≡◌, ◌+◌, ◌<◌, ◌≤◌, length, chars, IfNone, IfSome};
ghost use Rattle.textarea_highlight.specs.Highlights.{byte_of};
ghost use Rattle.textarea_highlight.specs.Marks.{IsOffsetMark};

/// A position of a row: the number of characters before it, its byte offset, and its column, which
/// counts from the start of the row.
#[derive(Clone, Copy, Debug, PartialEq, Eq)]
pub struct RowMark {
    pub characters: usize,
    pub offset: usize,
    pub column: usize,
}

/// The start of a row.
pub const ROW_START: RowMark = RowMark {
    characters: 0,
    offset: 0,
    column: 0,
};

/// Returns the bytes at which the character of this column begins and ends, if the row has it. The
/// row is read from the mark on, if the mark isn't after that character.
pub(super) fn bytes_of_character(row: &str, mark: RowMark, column: usize) -> Option<(usize, usize)>
    requires { IsOffsetMark row.now mark }
    ensures found { IfSome result (λ bytes. bytes
        ≡ (byte_of row.now column, byte_of row.now (column + 1))) }
    ensures within { IfSome result (λ _. column < length (chars row.now)) }
    ensures none { IfNone result (length (chars row.now) ≤ column) }
{
    if mark.characters <= column {
        bytes_after(row, mark, column - mark.characters)
    } else {
        bytes_after(row, ROW_START, column)
    }
}

// Returns the bytes at which the character begins and ends that comes `count` characters after the
// one at the mark, if the row has it.
fn bytes_after(row: &str, mark: RowMark, count: usize) -> Option<(usize, usize)>
    requires { IsOffsetMark row.now mark }
    ensures found { IfSome result (λ bytes. bytes ≡ (
      byte_of row.now (mark.characters + count),
      byte_of row.now (mark.characters + count + 1),
    )) }
    ensures within { IfSome result (λ _. mark.characters + count < length (chars row.now)) }
    ensures none { IfNone result (length (chars row.now) ≤ mark.characters + count) }
{
    let (start, c) = row[mark.offset..].char_indices().nth(count)?;
    Some((mark.offset + start, mark.offset + start + c.len_utf8()))
}
