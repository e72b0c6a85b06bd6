//! The columns that characters take. Columns count from 0 at the start of a visual row, and a tab
//! reaches to the next tab stop. Without tab stops a tab takes no column in wrapping and drawing,
//! and one display column in moves of the cursor.
//!
//! Only other crates of this repository call these. No facade exports them.
ghost use Rattle.std.specs.Prelude.{◌≡◌, ◌+◌, ◌*◌, ◌^◌, ◌<◌, ◌≤◌, ◌↔◌, length, take, drop, chars, IsTrue};
ghost use Rattle.std.specs.List.{AllByRecursion};
ghost use Rattle.textarea_wrap.specs.Columns.{IsVisible, IsVisibleCount, plain_width, column_after, end_column, display_column_after, display_end_column};

use unicode_width::UnicodeWidthChar;

/// Returns the columns of a character other than a tab, at most 3: its width by `unicode_width`
/// (UAX #11), or 0 where it has none, as a control character.
pub fn plain_columns(c: char) -> usize
    ensures value { result ≡ plain_width c }
    ensures narrow { result ≤ 3 }
{
    c.width().unwrap_or(0)
}

/// Returns the column after a character that begins at `column`. A tab reaches to the next multiple
/// of `tab_len`, and takes no column if that is 0.
pub fn column_after(c: char, column: usize, tab_len: u8) -> usize
    requires { column < 2 ^ 63 }
    ensures value { result ≡ column_after tab_len column c }
    ensures after { column ≤ result }
    ensures near { result ≤ column + 255 }
{
    if c != '\t' {
        column + plain_columns(c)
    } else if tab_len == 0 {
        column
    } else {
        let stop = tab_len as usize;
        column + (stop - column % stop)
    }
}

/// The number of bytes that a processor can compare at once.
const STRETCH: usize = 32;

/// Returns the number of visible ASCII characters that a text begins with, at most `most`. Each is
/// one byte and takes one column.
#[inline]
pub fn visible_count(text: &str, most: usize) -> usize
    ensures { IsVisibleCount text.now most result }
{
    let bytes = text.as_bytes();
    let end = bytes.len().min(most);
    let mut count = 0;
    if STRETCH <= end {
        count = visible_stretches(bytes, end);
    }
    'bytes: while count < end && is_visible(bytes[count]) {
        count += 1;
    }
    count
}

// Returns how many bytes before an end are in whole stretches of visible ASCII characters. It isn't
// inlined, so that the count in a short text is.
#[inline(never)]
fn visible_stretches(bytes: &[u8], end: usize) -> usize
    requires { end ≤ length bytes.now }
    ensures within { result ≤ end }
    ensures visible { AllByRecursion IsVisible (take result bytes.now) }
    ensures stops { result + STRETCH ≤ end
        → ¬ (AllByRecursion IsVisible (take STRETCH (drop result bytes.now))) }
{
    let mut count = 0;
    'stretches: while STRETCH <= end - count && are_visible(&bytes[count..count + STRETCH]) {
        count += STRETCH;
    }
    count
}

// Reads all bytes, also behind one that isn't visible, since that is faster in a short stretch.
fn are_visible(bytes: &[u8]) -> bool
    ensures { IsTrue result ↔ AllByRecursion IsVisible bytes.now }
{
    let mut all = true;
    for byte in bytes {
        all = all & is_visible(*byte);
    }
    all
}

/// Returns whether a byte is a visible ASCII character, the space among them.
pub fn is_visible(byte: u8) -> bool
    ensures { IsTrue result ↔ IsVisible byte }
{
    32 <= byte && byte < 127
}

/// Returns the column after a text that begins at `column`.
#[inline]
pub fn column_after_text(text: &str, column: usize, tab_len: u8) -> usize
    requires { column + 255 * length text.now < 2 ^ 63 }
    ensures value { result ≡ end_column tab_len column (chars text.now) }
    ensures after { column ≤ result }
    ensures near { result ≤ column + 255 * length text.now }
{
    let visible = visible_count(text, text.len());
    let mut end = column + visible;
    for c in text[visible..].chars() {
        end = column_after(c, end, tab_len);
    }
    end
}

/// Returns the display column after a character that begins at `column`. As `column_after`, but a
/// tab takes one column if `tab_len` is 0.
pub fn display_column_after(c: char, column: usize, tab_len: u8) -> usize
    requires { column < 2 ^ 63 }
    ensures value { result ≡ display_column_after tab_len column c }
    ensures after { column ≤ result }
    ensures near { result ≤ column + 255 }
{
    column_after(c, column, tab_len.max(1))
}

/// Returns the display column after a text that begins at `column`.
pub fn display_column_after_text(text: &str, column: usize, tab_len: u8) -> usize
    requires { column + 255 * length text.now < 2 ^ 63 }
    ensures value { result ≡ display_end_column tab_len column (chars text.now) }
    ensures after { column ≤ result }
    ensures near { result ≤ column + 255 * length text.now }
{
    column_after_text(text, column, tab_len.max(1))
}

/// Returns whether a text that begins at column 0 ends at or before the column `width`. Reads no
/// further than the first character that ends past it.
pub fn fits_width(text: &str, width: usize, tab_len: u8) -> bool
    requires { 255 * length text.now < 2 ^ 63 }
    ensures { IsTrue result ↔ (end_column tab_len 0 (chars text.now) ≤ width) }
{
    let visible = visible_count(text, width);
    let mut column = visible;
    for c in text[visible..].chars() {
        column = column_after(c, column, tab_len);
        if width < column {
            return false;
        }
    }
    true
}
