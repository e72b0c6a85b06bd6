//! Measured heights of a text area.

/// Measured heights, in screen rows.
#[derive(Clone, Copy, Debug, PartialEq, Eq)]
pub struct TextAreaMeasure {
    /// The rows of the text, or of the placeholder if that is drawn.
    pub content_rows: u16,
    /// The height of the whole area that shows the content, from `min_rows` to `max_rows`.
    pub preferred_rows: u16,
    /// The least height: the one that is set, or the block's rows and one more if that is greater.
    pub min_rows: u16,
    /// The greatest height: the one that is set, or the least if that is greater.
    pub max_rows: u16,
}
