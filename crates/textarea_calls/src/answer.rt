//! The results of calls, as values that can be printed and compared.
use textarea_change::TextChange;
use textarea_data::cursor::{CursorRenderMode, CursorUnit};
use textarea_data::measure::TextAreaMeasure;
use textarea_data::range::{AtomicRange, RejectedAtomicRange};
use textarea_screen::screen::{Alignment, Position, Style};
use textarea_wrap::wrap::WrapMode;

/// The result of a call.
#[derive(Debug, PartialEq, Eq, Drop)]
pub enum Answer {
    /// The call was made; it has no result.
    Done,
    /// Whether the call found something to do.
    Flag(bool),
    /// The text that was yanked last.
    Text(String),
    /// The range at the cursor, or the range that was removed, if there is one.
    Range(Option<AtomicRange>),
    /// The rejected ranges. If there is one, no range is set.
    Rejected(Vec<RejectedAtomicRange>),
    /// The measured heights.
    Measured(TextAreaMeasure),
    /// The pattern is rejected, and nothing changed.
    PatternRejected,
    /// The position (row, column) in the text of what a screen cell shows, if the cell shows text.
    Place(Option<(usize, usize)>),
    /// The cursor's cell at the last `Call::Render`, if the cursor was visible.
    Position(Option<Position>),
    /// One of the styles.
    Style(Style),
    /// The mask: the character that is drawn instead of each character of the text, if one is set.
    Character(Option<char>),
    /// How the cell at the cursor is drawn.
    CursorRenderMode(CursorRenderMode),
    /// What the cursor goes over.
    CursorUnit(CursorUnit),
    /// The alignment of the lines in the inner area.
    Alignment(Alignment),
    /// A number that is set.
    Number(usize),
    /// The cursor's position (row, column).
    Cursor((usize, usize)),
    /// The two ends of the selection, the earlier one first, if a selection is open.
    Selection(Option<((usize, usize), (usize, usize))>),
    /// A style, if what it styles is shown.
    StyleIfVisible(Option<Style>),
    /// How lines are wrapped.
    WrapMode(WrapMode),
    /// A number, if there is one.
    NumberIfAny(Option<usize>),
    /// The changes of the text since they were last taken.
    Changes(Vec<TextChange>),
}
