//! The columns that a grapheme cluster takes.
ghost use Rattle.std.specs.Prelude.{◌≡◌, ◌^◌, ◌<◌, chars, sum_by};
ghost use Rattle.std.specs.Char.{is_control};
ghost use Rattle.std.specs.List.{list_any};
ghost use Rattle.textarea_paint.specs.Columns.{columns_of, char_columns};

use super::letters::letter_columns;
use unicode_width::UnicodeWidthChar;

/// Returns the number of columns that a grapheme cluster takes: the sum of its characters' columns
/// (UAX #11), or 0 if it has a control character.
#[tactic(auto, unfolding(crate::specs::Columns::columns_of))]
pub fn cluster_columns(cluster: &str) -> usize
    ensures { result ≡ columns_of cluster.now }
{
    let mut characters = cluster.chars();
    // Most clusters are one character.
    if let (Some(c), None) = (characters.next(), characters.next()) {
        return if c.is_control() {
            0
        } else {
            columns_of_char(c)
        };
    }
    if has_control(cluster) {
        0
    } else {
        sum_of_columns(cluster)
    }
}

/// Returns the number of columns that a character takes, 0 if it is a control character. Those of a
/// letter are found without a table.
pub(super) fn columns_of_char(c: char) -> usize
    ensures { result ≡ char_columns c }
{
    let columns = letter_columns(c);
    if 0 < columns {
        columns
    } else {
        c.width().unwrap_or(0)
    }
}

fn has_control(text: &str) -> bool
    ensures { result ≡ list_any is_control (chars text.now) }
{
    text.chars().any(|c| c.is_control())
}

fn sum_of_columns(text: &str) -> usize
    requires { sum_by char_columns (chars text.now) < 2 ^ 64 }
    ensures { result ≡ sum_by char_columns (chars text.now) }
{
    text.chars().map(|c| c.width().unwrap_or(0)).sum()
}
