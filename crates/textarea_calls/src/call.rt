// Written by tools/calls from crates/textarea_calls/calls.txt.
//! The calls of a text area, as data.

use std::time::Duration;
use textarea_change::ChangeUnit;
use textarea_data::cursor::{CursorMove, CursorRenderMode, CursorUnit};
use textarea_data::input::Input;
use textarea_data::range::{AtomicCursorBias, AtomicDeleteDirection, AtomicRange};
use textarea_data::scroll::Scrolling;
use textarea_screen::screen::{Alignment, Block, Position, Rect, Style, Text};
use textarea_wrap::wrap::WrapMode;

/// One call on a text area, with its arguments.
#[derive(Clone, Copy, Debug)]
pub enum Call<'a> {
    /// `TextArea::insert_char`
    InsertChar(char),
    /// `TextArea::insert_newline`
    InsertNewline,
    /// `TextArea::insert_str`
    InsertStr(&'a str),
    /// `TextArea::insert_pasted`
    InsertPasted(&'a str),
    /// `TextArea::insert_tab`
    InsertTab,
    /// `TextArea::paste`
    Paste,
    /// `TextArea::duplicate_line`
    DuplicateLine,
    /// `TextArea::indent_lines`
    IndentLines,
    /// `TextArea::outdent_lines`
    OutdentLines,
    /// `TextArea::move_lines_up`
    MoveLinesUp,
    /// `TextArea::move_lines_down`
    MoveLinesDown,
    /// `TextArea::replace_range`
    ReplaceRange {
        /// The one end of the text that is replaced (row, column).
        from: (usize, usize),
        /// The other end; the two may be in either order.
        to: (usize, usize),
        /// What replaces it.
        text: &'a str,
    },
    /// `TextArea::set_lines`, with a copy of these lines; there is at least one
    SetLines {
        /// The lines that are copied.
        lines: &'a [String],
        /// The cursor's new position (row, column); it moves to the nearest one in the lines.
        cursor: (usize, usize),
    },
    /// `TextArea::delete_char`
    DeleteChar,
    /// `TextArea::delete_next_char`
    DeleteNextChar,
    /// `TextArea::delete_newline`
    DeleteNewline,
    /// `TextArea::delete_str`
    DeleteStr(usize),
    /// `TextArea::delete_line_by_end`
    DeleteLineByEnd,
    /// `TextArea::delete_line_by_head`
    DeleteLineByHead,
    /// `TextArea::delete_word`
    DeleteWord,
    /// `TextArea::delete_next_word`
    DeleteNextWord,
    /// `TextArea::clear`
    Clear,
    /// `TextArea::cut`
    Cut,
    /// `TextArea::undo`
    Undo,
    /// `TextArea::redo`
    Redo,
    /// `TextArea::set_max_histories`
    SetMaxHistories(usize),
    /// `TextArea::set_undo_coalescing`
    SetUndoCoalescing(bool),
    /// `TextArea::set_undo_grouping`
    SetUndoGrouping(bool),
    /// `TextArea::set_undo_ranges`
    SetUndoRanges(bool),
    /// `TextArea::begin_undo_group`
    BeginUndoGroup,
    /// `TextArea::end_undo_group`
    EndUndoGroup,
    /// `TextArea::end_run`
    EndRun,
    /// `TextArea::set_now`
    SetNow(Duration),
    /// `TextArea::set_change_log`
    SetChangeLog(Option<ChangeUnit>),
    /// `TextArea::take_changes`
    TakeChanges,
    /// `TextArea::start_selection`
    StartSelection,
    /// `TextArea::cancel_selection`
    CancelSelection,
    /// `TextArea::select_all`
    SelectAll,
    /// `TextArea::copy`
    Copy,
    /// `TextArea::set_yank_text`
    SetYankText(&'a str),
    /// `TextArea::move_cursor`
    Move(CursorMove),
    /// `TextArea::go_to`
    GoTo((usize, usize)),
    /// `TextArea::scroll`
    Scroll(Scrolling),
    /// `TextArea::set_search_pattern`
    SetSearchPattern(&'a str),
    /// `TextArea::set_search_text`
    SetSearchText {
        /// The text to find; the empty one removes the pattern.
        text: &'a str,
        /// Whether letters of either case match.
        ignore_case: bool,
        /// Whether each end of the text that is a word's character must be an end of a word.
        whole_word: bool,
    },
    /// `TextArea::search_forward`
    SearchForward(bool),
    /// `TextArea::search_back`
    SearchBack(bool),
    /// `TextArea::replace_match`
    ReplaceMatch(&'a str),
    /// `TextArea::replace_all`
    ReplaceAll(&'a str),
    /// `TextArea::try_set_atomic_ranges`, with a copy of these ranges
    TrySetAtomicRanges(&'a [AtomicRange]),
    /// `TextArea::clear_atomic_ranges`
    ClearAtomicRanges,
    /// `TextArea::normalize_cursor_around_atomic_ranges`
    NormalizeCursorAroundAtomicRanges(AtomicCursorBias),
    /// `TextArea::atomic_range_at_cursor`
    AtomicRangeAtCursor(AtomicDeleteDirection),
    /// `TextArea::delete_atomic_range_at_cursor`
    DeleteAtomicRangeAtCursor(AtomicDeleteDirection),
    /// `TextArea::set_tab_length`
    SetTabLength(u8),
    /// `TextArea::set_hard_tab_indent`
    SetHardTabIndent(bool),
    /// `TextArea::set_read_only`
    SetReadOnly(bool),
    /// `TextArea::set_single_line`
    SetSingleLine(bool),
    /// `TextArea::set_max_chars`
    SetMaxChars(Option<usize>),
    /// `TextArea::set_cursor_unit`
    SetCursorUnit(CursorUnit),
    /// `TextArea::set_wrap_mode`
    SetWrapMode(WrapMode),
    /// `TextArea::set_line_number_style`
    SetLineNumberStyle(Style),
    /// `TextArea::remove_line_number`
    RemoveLineNumber,
    /// `TextArea::set_alignment`
    SetAlignment(Alignment),
    /// `TextArea::set_min_rows`
    SetMinRows(u16),
    /// `TextArea::set_max_rows`
    SetMaxRows(u16),
    /// `TextArea::set_block`, with a copy of this block
    SetBlock(&'a Block<'static>),
    /// `TextArea::remove_block`
    RemoveBlock,
    /// `TextArea::set_placeholder_text`
    SetPlaceholderText(&'a str),
    /// `TextArea::set_styled_placeholder`, with a copy of this text
    SetStyledPlaceholder(&'a Text<'static>),
    /// `TextArea::set_placeholder_style`
    SetPlaceholderStyle(Style),
    /// `TextArea::set_style`
    SetStyle(Style),
    /// `TextArea::set_cursor_style`
    SetCursorStyle(Style),
    /// `TextArea::set_cursor_line_style`
    SetCursorLineStyle(Style),
    /// `TextArea::set_cursor_line_number_style`
    SetCursorLineNumberStyle(Style),
    /// `TextArea::set_selection_style`
    SetSelectionStyle(Style),
    /// `TextArea::set_search_style`
    SetSearchStyle(Style),
    /// `TextArea::set_mask_char`
    SetMaskChar(char),
    /// `TextArea::clear_mask_char`
    ClearMaskChar,
    /// `TextArea::set_cursor_render_mode`
    SetCursorRenderMode(CursorRenderMode),
    /// `TextArea::custom_highlight`
    CustomHighlight {
        /// The start and the end, each as a row and a byte of it.
        range: ((usize, usize), (usize, usize)),
        /// How it is drawn.
        style: Style,
        /// Of highlights that start at one position, the one of the highest priority is drawn.
        priority: u8,
    },
    /// `TextArea::clear_custom_highlight`
    ClearCustomHighlight,
    /// `TextArea::render`, into the buffer of the run
    Render(Rect),
    /// `TextArea::input`, of an input like this one
    Input(&'a Input),
    /// `TextArea::input_without_shortcuts`, of an input like this one
    InputWithoutShortcuts(&'a Input),
    /// `TextArea::text`
    Text,
    /// `TextArea::text_range`
    TextRange {
        /// The one end of the text (row, column).
        from: (usize, usize),
        /// The other end; the two may be in either order.
        to: (usize, usize),
    },
    /// `TextArea::cursor`
    Cursor,
    /// `TextArea::is_empty`
    IsEmpty,
    /// `TextArea::is_selecting`
    IsSelecting,
    /// `TextArea::selection_range`
    SelectionRange,
    /// `TextArea::match_count`
    MatchCount,
    /// `TextArea::match_index`
    MatchIndex,
    /// `TextArea::yank_text`
    YankText,
    /// `TextArea::max_histories`
    MaxHistories,
    /// `TextArea::undo_coalescing`
    UndoCoalescing,
    /// `TextArea::undo_grouping`
    UndoGrouping,
    /// `TextArea::undo_ranges`
    UndoRanges,
    /// `TextArea::read_only`
    ReadOnly,
    /// `TextArea::single_line`
    SingleLine,
    /// `TextArea::max_chars`
    MaxChars,
    /// `TextArea::cursor_unit`
    CursorUnit,
    /// `TextArea::tab_length`
    TabLength,
    /// `TextArea::hard_tab_indent`
    HardTabIndent,
    /// `TextArea::wrap_mode`
    WrapMode,
    /// `TextArea::line_number_style`
    LineNumberStyle,
    /// `TextArea::alignment`
    Alignment,
    /// `TextArea::min_rows`
    MinRows,
    /// `TextArea::max_rows`
    MaxRows,
    /// `TextArea::measure`
    Measure(u16),
    /// `TextArea::placeholder_style`
    PlaceholderStyle,
    /// `TextArea::style`
    Style,
    /// `TextArea::cursor_style`
    CursorStyle,
    /// `TextArea::cursor_line_style`
    CursorLineStyle,
    /// `TextArea::cursor_line_number_style`
    CursorLineNumberStyle,
    /// `TextArea::selection_style`
    SelectionStyle,
    /// `TextArea::search_style`
    SearchStyle,
    /// `TextArea::mask_char`
    MaskChar,
    /// `TextArea::cursor_render_mode`
    CursorRenderMode,
    /// `TextArea::rendered_cursor_position`
    RenderedCursorPosition,
    /// `TextArea::cursor_at_position`
    CursorAtPosition(Position),
}
