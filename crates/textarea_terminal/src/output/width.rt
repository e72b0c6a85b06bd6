//! The columns of a grapheme cluster.
ghost use Rattle.std.specs.Prelude.{◌≡◌, ◌^◌, ◌<◌, ◌≤◌, ◌*◌, ◌↔◌, ◌==◌, ◌||◌, nat_lt, true, chars, length, sum_by, count_by, slice_index, IsTrue, if◌then◌else◌};
ghost use Rattle.std.specs.Char.{is_control};
ghost use Rattle.std.specs.List.{list_any};
ghost use Rattle.textarea_paint.specs.Columns.{columns_of, char_columns};
ghost use Rattle.textarea_paint.specs.Plain.{IsPrintable};
ghost use Rattle.textarea_terminal.specs.Disputed.{has_columns, is_disputed, is_jamo, is_joining, is_part_of_emoji, is_prefix_sign, is_selector};
ghost use Rattle.textarea_terminal.specs.PaintCells.{cluster_columns};
ghost use Rattle.unicode_segmentation.specs.Grapheme.{graphemes};

use textarea_paint::paint::columns;
use unicode_segmentation::UnicodeSegmentation;
use unicode_width::UnicodeWidthChar;

/// The number of columns of a text that is one grapheme cluster; 0 for other texts, and for
/// clusters that can't be shown.
#[inline]
pub(super) fn cluster_columns(text: &str) -> usize
    ensures value { result ≡ cluster_columns text.now }
{
    if is_plain(text.as_bytes()) {
        1
    } else {
        any_columns(text)
    }
}

/// The same, for texts other than one printable character of ASCII.
#[inline(never)]
#[tactic(auto, unfolding(crate::specs::PaintCells::cluster_columns))]
fn any_columns(text: &str) -> usize
    ensures value { result ≡ cluster_columns text.now }
{
    if is_cluster(text) {
        columns::cluster_columns(text)
    } else {
        0
    }
}

/// Whether these bytes are one printable character of ASCII.
pub(super) fn is_plain(bytes: &[u8]) -> bool
    ensures { IsTrue result → (length bytes.now ≡ 1) × IsPrintable (slice_index bytes.now 0) }
{
    match bytes {
        [only] => 32 <= *only && *only < 127,
        _ => false,
    }
}

/// Whether a text is one grapheme cluster.
fn is_cluster(text: &str) -> bool
    ensures { result ≡ (length (graphemes true text.now) == 1) }
{
    let mut clusters = text.graphemes(true);
    clusters.next().is_some() && clusters.next().is_none()
}

/// Whether terminals don't agree on a cluster's columns, or may join it with a cluster beside it.
#[inline]
pub(super) fn is_disputed(text: &str) -> bool
    ensures value { result ≡ is_disputed text.now }
{
    if is_plain(text.as_bytes()) {
        false
    } else {
        is_any_disputed(text)
    }
}

/// The same, for texts other than one printable character of ASCII.
#[inline(never)]
fn is_any_disputed(text: &str) -> bool
    ensures { result ≡ is_disputed text.now }
{
    either(has_joining(text), count_with_columns(text))
}

fn either(joins: bool, count: usize) -> bool
    ensures { result ≡ (joins || nat_lt 1 count) }
{
    joins || count > 1
}

/// Whether a character joins others.
fn has_joining(text: &str) -> bool
    ensures { result ≡ list_any is_joining (chars text.now) }
{
    text.chars().any(|c| is_joining(c))
}

/// The number of characters that take a column at least.
fn count_with_columns(text: &str) -> usize
    ensures { result ≡ count_by has_columns (chars text.now) }
{
    text.chars().filter(|c| has_columns(*c)).count()
}

/// Whether terminals differ in what they do at a character: they count it as a column or not, or
/// join it with those before or after it.
fn is_joining(c: char) -> bool
    ensures { result ≡ is_joining c }
{
    c == '\u{200D}' || is_selector(c) || is_part_of_emoji(c) || is_jamo(c) || is_prefix_sign(c)
}

/// Whether the character selects a form of the one before it.
fn is_selector(c: char) -> bool
    ensures { result ≡ is_selector c }
{
    ('\u{FE00}' <= c && c <= '\u{FE0F}')
        || ('\u{E0100}' <= c && c <= '\u{E01EF}')
        || ('\u{180B}' <= c && c <= '\u{180F}')
}

/// Whether the character is a letter of a flag, or a skin tone.
fn is_part_of_emoji(c: char) -> bool
    ensures { result ≡ is_part_of_emoji c }
{
    ('\u{1F1E6}' <= c && c <= '\u{1F1FF}') || ('\u{1F3FB}' <= c && c <= '\u{1F3FF}')
}

/// Whether the character is a part of a Korean syllable.
fn is_jamo(c: char) -> bool
    ensures { result ≡ is_jamo c }
{
    ('\u{1100}' <= c && c <= '\u{11FF}')
        || ('\u{A960}' <= c && c <= '\u{A97F}')
        || ('\u{D7B0}' <= c && c <= '\u{D7FF}')
}

/// Whether the character is a sign that is written before what follows it.
fn is_prefix_sign(c: char) -> bool
    ensures { result ≡ is_prefix_sign c }
{
    ('\u{0600}' <= c && c <= '\u{0605}')
        || c == '\u{06DD}'
        || c == '\u{070F}'
        || ('\u{0890}' <= c && c <= '\u{0891}')
        || c == '\u{08E2}'
        || c == '\u{0D4E}'
        || c == '\u{110BD}'
        || c == '\u{110CD}'
}

/// Whether the character takes a column at least.
fn has_columns(c: char) -> bool
    ensures { result ≡ has_columns c }
{
    c.width().unwrap_or(0) > 0
}
