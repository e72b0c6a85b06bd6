// Written by tools/calls from crates/textarea_calls/calls.txt.
//! The topics of calls. For each topic there is one function that makes its calls.
ghost use Rattle.std.specs.Prelude.{◌≡◌, false};
ghost use Rattle.textarea_calls.specs.Topics.{call_of, draws};

use crate::call::Call;
use std::time::Duration;
use textarea_change::ChangeUnit;
use textarea_data::cursor::{CursorMove, CursorRenderMode, CursorUnit};
use textarea_data::input::Input;
use textarea_data::range::{AtomicCursorBias, AtomicDeleteDirection, AtomicRange};
use textarea_data::scroll::Scrolling;
use textarea_screen::screen::{Alignment, Block, Position, Style, Text};
use textarea_wrap::wrap::WrapMode;

/// A call that doesn't draw, by its topic, with its arguments.
#[derive(Clone, Copy)]
pub enum Topic<'a> {
    Insert(InsertCall<'a>),
    Remove(RemoveCall),
    History(HistoryCall),
    Changes(ChangesCall),
    Select(SelectCall<'a>),
    Move(MoveCall),
    Search(SearchCall<'a>),
    Ranges(RangesCall<'a>),
    Options(OptionsCall),
    Appearance(AppearanceCall<'a>),
    Keys(KeysCall<'a>),
    Read(ReadCall),
}

/// Insertions at the cursor, and new lines.
#[derive(Clone, Copy)]
pub enum InsertCall<'a> {
    InsertChar(char),
    InsertNewline,
    InsertStr(&'a str),
    InsertPasted(&'a str),
    InsertTab,
    Paste,
    DuplicateLine,
    IndentLines,
    OutdentLines,
    MoveLinesUp,
    MoveLinesDown,
    ReplaceRange {
        from: (usize, usize),
        to: (usize, usize),
        text: &'a str,
    },
    SetLines {
        lines: &'a [String],
        cursor: (usize, usize),
    },
}

/// Removals.
#[derive(Clone, Copy)]
pub enum RemoveCall {
    DeleteChar,
    DeleteNextChar,
    DeleteNewline,
    DeleteStr(usize),
    DeleteLineByEnd,
    DeleteLineByHead,
    DeleteWord,
    DeleteNextWord,
    Clear,
    Cut,
}

/// Undo and redo, and settings of the history.
#[derive(Clone, Copy)]
pub enum HistoryCall {
    Undo,
    Redo,
    SetMaxHistories(usize),
    SetUndoCoalescing(bool),
    SetUndoGrouping(bool),
    SetUndoRanges(bool),
    BeginUndoGroup,
    EndUndoGroup,
    EndRun,
    SetNow(Duration),
}

/// What changed in the text.
#[derive(Clone, Copy)]
pub enum ChangesCall {
    SetChangeLog(Option<ChangeUnit>),
    TakeChanges,
}

/// The selection, and what is yanked.
#[derive(Clone, Copy)]
pub enum SelectCall<'a> {
    StartSelection,
    CancelSelection,
    SelectAll,
    Copy,
    SetYankText(&'a str),
}

/// Moves of the cursor, and scrolls.
#[derive(Clone, Copy)]
pub enum MoveCall {
    Move(CursorMove),
    GoTo((usize, usize)),
    Scroll(Scrolling),
}

/// Searches.
#[derive(Clone, Copy)]
pub enum SearchCall<'a> {
    SetSearchPattern(&'a str),
    SetSearchText {
        text: &'a str,
        ignore_case: bool,
        whole_word: bool,
    },
    SearchForward(bool),
    SearchBack(bool),
    ReplaceMatch(&'a str),
    ReplaceAll(&'a str),
}

/// Atomic ranges.
#[derive(Clone, Copy)]
pub enum RangesCall<'a> {
    TrySetAtomicRanges(&'a [AtomicRange]),
    ClearAtomicRanges,
    NormalizeCursorAroundAtomicRanges(AtomicCursorBias),
    AtomicRangeAtCursor(AtomicDeleteDirection),
    DeleteAtomicRangeAtCursor(AtomicDeleteDirection),
}

/// Settings of tabs, of what may be edited, of wrapping, line numbers and heights.
#[derive(Clone, Copy)]
pub enum OptionsCall {
    SetTabLength(u8),
    SetHardTabIndent(bool),
    SetReadOnly(bool),
    SetSingleLine(bool),
    SetMaxChars(Option<usize>),
    SetCursorUnit(CursorUnit),
    SetWrapMode(WrapMode),
    SetLineNumberStyle(Style),
    RemoveLineNumber,
    SetAlignment(Alignment),
    SetMinRows(u16),
    SetMaxRows(u16),
}

/// Settings of how the text and its surroundings look.
#[derive(Clone, Copy)]
pub enum AppearanceCall<'a> {
    SetBlock(&'a Block<'static>),
    RemoveBlock,
    SetPlaceholderText(&'a str),
    SetStyledPlaceholder(&'a Text<'static>),
    SetPlaceholderStyle(Style),
    SetStyle(Style),
    SetCursorStyle(Style),
    SetCursorLineStyle(Style),
    SetCursorLineNumberStyle(Style),
    SetSelectionStyle(Style),
    SetSearchStyle(Style),
    SetMaskChar(char),
    ClearMaskChar,
    SetCursorRenderMode(CursorRenderMode),
    CustomHighlight {
        range: ((usize, usize), (usize, usize)),
        style: Style,
        priority: u8,
    },
    ClearCustomHighlight,
}

/// Inputs, by one of the two key tables.
#[derive(Clone, Copy)]
pub enum KeysCall<'a> {
    Input(&'a Input),
    InputWithoutShortcuts(&'a Input),
}

/// Calls that only return something.
#[derive(Clone, Copy)]
pub enum ReadCall {
    Text,
    TextRange {
        from: (usize, usize),
        to: (usize, usize),
    },
    Cursor,
    IsEmpty,
    IsSelecting,
    SelectionRange,
    MatchCount,
    MatchIndex,
    YankText,
    MaxHistories,
    UndoCoalescing,
    UndoGrouping,
    UndoRanges,
    ReadOnly,
    SingleLine,
    MaxChars,
    CursorUnit,
    TabLength,
    HardTabIndent,
    WrapMode,
    LineNumberStyle,
    Alignment,
    MinRows,
    MaxRows,
    Measure(u16),
    PlaceholderStyle,
    Style,
    CursorStyle,
    CursorLineStyle,
    CursorLineNumberStyle,
    SelectionStyle,
    SearchStyle,
    MaskChar,
    CursorRenderMode,
    RenderedCursorPosition,
    CursorAtPosition(Position),
}

/// Returns the topic of a call that doesn't draw, with the call's arguments.
pub fn topic_of(call: Call<'_>) -> Topic<'_>
    requires undrawn { draws call ≡ false }
    ensures { call_of result ≡ call.entry }
{
    match call {
        Call::InsertChar(c) => Topic::Insert(InsertCall::InsertChar(c)),
        Call::InsertNewline => Topic::Insert(InsertCall::InsertNewline),
        Call::InsertStr(text) => Topic::Insert(InsertCall::InsertStr(text)),
        Call::InsertPasted(text) => Topic::Insert(InsertCall::InsertPasted(text)),
        Call::InsertTab => Topic::Insert(InsertCall::InsertTab),
        Call::Paste => Topic::Insert(InsertCall::Paste),
        Call::DuplicateLine => Topic::Insert(InsertCall::DuplicateLine),
        Call::IndentLines => Topic::Insert(InsertCall::IndentLines),
        Call::OutdentLines => Topic::Insert(InsertCall::OutdentLines),
        Call::MoveLinesUp => Topic::Insert(InsertCall::MoveLinesUp),
        Call::MoveLinesDown => Topic::Insert(InsertCall::MoveLinesDown),
        Call::ReplaceRange { from, to, text } => Topic::Insert(InsertCall::ReplaceRange {
            from,
            to,
            text,
        }),
        Call::SetLines { lines, cursor } => Topic::Insert(InsertCall::SetLines { lines, cursor }),
        Call::DeleteChar => Topic::Remove(RemoveCall::DeleteChar),
        Call::DeleteNextChar => Topic::Remove(RemoveCall::DeleteNextChar),
        Call::DeleteNewline => Topic::Remove(RemoveCall::DeleteNewline),
        Call::DeleteStr(count) => Topic::Remove(RemoveCall::DeleteStr(count)),
        Call::DeleteLineByEnd => Topic::Remove(RemoveCall::DeleteLineByEnd),
        Call::DeleteLineByHead => Topic::Remove(RemoveCall::DeleteLineByHead),
        Call::DeleteWord => Topic::Remove(RemoveCall::DeleteWord),
        Call::DeleteNextWord => Topic::Remove(RemoveCall::DeleteNextWord),
        Call::Clear => Topic::Remove(RemoveCall::Clear),
        Call::Cut => Topic::Remove(RemoveCall::Cut),
        Call::Undo => Topic::History(HistoryCall::Undo),
        Call::Redo => Topic::History(HistoryCall::Redo),
        Call::SetMaxHistories(maximum) => Topic::History(HistoryCall::SetMaxHistories(maximum)),
        Call::SetUndoCoalescing(joins) => Topic::History(HistoryCall::SetUndoCoalescing(joins)),
        Call::SetUndoGrouping(groups) => Topic::History(HistoryCall::SetUndoGrouping(groups)),
        Call::SetUndoRanges(on) => Topic::History(HistoryCall::SetUndoRanges(on)),
        Call::BeginUndoGroup => Topic::History(HistoryCall::BeginUndoGroup),
        Call::EndUndoGroup => Topic::History(HistoryCall::EndUndoGroup),
        Call::EndRun => Topic::History(HistoryCall::EndRun),
        Call::SetNow(time) => Topic::History(HistoryCall::SetNow(time)),
        Call::SetChangeLog(unit) => Topic::Changes(ChangesCall::SetChangeLog(unit)),
        Call::TakeChanges => Topic::Changes(ChangesCall::TakeChanges),
        Call::StartSelection => Topic::Select(SelectCall::StartSelection),
        Call::CancelSelection => Topic::Select(SelectCall::CancelSelection),
        Call::SelectAll => Topic::Select(SelectCall::SelectAll),
        Call::Copy => Topic::Select(SelectCall::Copy),
        Call::SetYankText(text) => Topic::Select(SelectCall::SetYankText(text)),
        Call::Move(cursor_move) => Topic::Move(MoveCall::Move(cursor_move)),
        Call::GoTo(place) => Topic::Move(MoveCall::GoTo(place)),
        Call::Scroll(scrolling) => Topic::Move(MoveCall::Scroll(scrolling)),
        Call::SetSearchPattern(pattern) => Topic::Search(SearchCall::SetSearchPattern(pattern)),
        Call::SetSearchText {
            text,
            ignore_case,
            whole_word,
        } => Topic::Search(SearchCall::SetSearchText {
            text,
            ignore_case,
            whole_word,
        }),
        Call::SearchForward(match_cursor) => Topic::Search(SearchCall::SearchForward(match_cursor)),
        Call::SearchBack(match_cursor) => Topic::Search(SearchCall::SearchBack(match_cursor)),
        Call::ReplaceMatch(text) => Topic::Search(SearchCall::ReplaceMatch(text)),
        Call::ReplaceAll(text) => Topic::Search(SearchCall::ReplaceAll(text)),
        Call::TrySetAtomicRanges(ranges) => Topic::Ranges(RangesCall::TrySetAtomicRanges(ranges)),
        Call::ClearAtomicRanges => Topic::Ranges(RangesCall::ClearAtomicRanges),
        Call::NormalizeCursorAroundAtomicRanges(bias) => Topic::Ranges(
            RangesCall::NormalizeCursorAroundAtomicRanges(bias),
        ),
        Call::AtomicRangeAtCursor(direction) => Topic::Ranges(RangesCall::AtomicRangeAtCursor(
            direction,
        )),
        Call::DeleteAtomicRangeAtCursor(direction) => Topic::Ranges(
            RangesCall::DeleteAtomicRangeAtCursor(direction),
        ),
        Call::SetTabLength(columns) => Topic::Options(OptionsCall::SetTabLength(columns)),
        Call::SetHardTabIndent(hard) => Topic::Options(OptionsCall::SetHardTabIndent(hard)),
        Call::SetReadOnly(read_only) => Topic::Options(OptionsCall::SetReadOnly(read_only)),
        Call::SetSingleLine(single_line) => Topic::Options(OptionsCall::SetSingleLine(single_line)),
        Call::SetMaxChars(maximum) => Topic::Options(OptionsCall::SetMaxChars(maximum)),
        Call::SetCursorUnit(unit) => Topic::Options(OptionsCall::SetCursorUnit(unit)),
        Call::SetWrapMode(mode) => Topic::Options(OptionsCall::SetWrapMode(mode)),
        Call::SetLineNumberStyle(style) => Topic::Options(OptionsCall::SetLineNumberStyle(style)),
        Call::RemoveLineNumber => Topic::Options(OptionsCall::RemoveLineNumber),
        Call::SetAlignment(alignment) => Topic::Options(OptionsCall::SetAlignment(alignment)),
        Call::SetMinRows(rows) => Topic::Options(OptionsCall::SetMinRows(rows)),
        Call::SetMaxRows(rows) => Topic::Options(OptionsCall::SetMaxRows(rows)),
        Call::SetBlock(block) => Topic::Appearance(AppearanceCall::SetBlock(block)),
        Call::RemoveBlock => Topic::Appearance(AppearanceCall::RemoveBlock),
        Call::SetPlaceholderText(text) => Topic::Appearance(AppearanceCall::SetPlaceholderText(
            text,
        )),
        Call::SetStyledPlaceholder(text) => Topic::Appearance(AppearanceCall::SetStyledPlaceholder(
            text,
        )),
        Call::SetPlaceholderStyle(style) => Topic::Appearance(AppearanceCall::SetPlaceholderStyle(
            style,
        )),
        Call::SetStyle(style) => Topic::Appearance(AppearanceCall::SetStyle(style)),
        Call::SetCursorStyle(style) => Topic::Appearance(AppearanceCall::SetCursorStyle(style)),
        Call::SetCursorLineStyle(style) => Topic::Appearance(AppearanceCall::SetCursorLineStyle(
            style,
        )),
        Call::SetCursorLineNumberStyle(style) => Topic::Appearance(
            AppearanceCall::SetCursorLineNumberStyle(style),
        ),
        Call::SetSelectionStyle(style) => Topic::Appearance(AppearanceCall::SetSelectionStyle(
            style,
        )),
        Call::SetSearchStyle(style) => Topic::Appearance(AppearanceCall::SetSearchStyle(style)),
        Call::SetMaskChar(mask) => Topic::Appearance(AppearanceCall::SetMaskChar(mask)),
        Call::ClearMaskChar => Topic::Appearance(AppearanceCall::ClearMaskChar),
        Call::SetCursorRenderMode(mode) => Topic::Appearance(AppearanceCall::SetCursorRenderMode(
            mode,
        )),
        Call::CustomHighlight {
            range,
            style,
            priority,
        } => Topic::Appearance(AppearanceCall::CustomHighlight {
            range,
            style,
            priority,
        }),
        Call::ClearCustomHighlight => Topic::Appearance(AppearanceCall::ClearCustomHighlight),
        Call::Input(input) => Topic::Keys(KeysCall::Input(input)),
        Call::InputWithoutShortcuts(input) => Topic::Keys(KeysCall::InputWithoutShortcuts(input)),
        Call::Text => Topic::Read(ReadCall::Text),
        Call::TextRange { from, to } => Topic::Read(ReadCall::TextRange { from, to }),
        Call::Cursor => Topic::Read(ReadCall::Cursor),
        Call::IsEmpty => Topic::Read(ReadCall::IsEmpty),
        Call::IsSelecting => Topic::Read(ReadCall::IsSelecting),
        Call::SelectionRange => Topic::Read(ReadCall::SelectionRange),
        Call::MatchCount => Topic::Read(ReadCall::MatchCount),
        Call::MatchIndex => Topic::Read(ReadCall::MatchIndex),
        Call::YankText => Topic::Read(ReadCall::YankText),
        Call::MaxHistories => Topic::Read(ReadCall::MaxHistories),
        Call::UndoCoalescing => Topic::Read(ReadCall::UndoCoalescing),
        Call::UndoGrouping => Topic::Read(ReadCall::UndoGrouping),
        Call::UndoRanges => Topic::Read(ReadCall::UndoRanges),
        Call::ReadOnly => Topic::Read(ReadCall::ReadOnly),
        Call::SingleLine => Topic::Read(ReadCall::SingleLine),
        Call::MaxChars => Topic::Read(ReadCall::MaxChars),
        Call::CursorUnit => Topic::Read(ReadCall::CursorUnit),
        Call::TabLength => Topic::Read(ReadCall::TabLength),
        Call::HardTabIndent => Topic::Read(ReadCall::HardTabIndent),
        Call::WrapMode => Topic::Read(ReadCall::WrapMode),
        Call::LineNumberStyle => Topic::Read(ReadCall::LineNumberStyle),
        Call::Alignment => Topic::Read(ReadCall::Alignment),
        Call::MinRows => Topic::Read(ReadCall::MinRows),
        Call::MaxRows => Topic::Read(ReadCall::MaxRows),
        Call::Measure(width) => Topic::Read(ReadCall::Measure(width)),
        Call::PlaceholderStyle => Topic::Read(ReadCall::PlaceholderStyle),
        Call::Style => Topic::Read(ReadCall::Style),
        Call::CursorStyle => Topic::Read(ReadCall::CursorStyle),
        Call::CursorLineStyle => Topic::Read(ReadCall::CursorLineStyle),
        Call::CursorLineNumberStyle => Topic::Read(ReadCall::CursorLineNumberStyle),
        Call::SelectionStyle => Topic::Read(ReadCall::SelectionStyle),
        Call::SearchStyle => Topic::Read(ReadCall::SearchStyle),
        Call::MaskChar => Topic::Read(ReadCall::MaskChar),
        Call::CursorRenderMode => Topic::Read(ReadCall::CursorRenderMode),
        Call::RenderedCursorPosition => Topic::Read(ReadCall::RenderedCursorPosition),
        Call::CursorAtPosition(position) => Topic::Read(ReadCall::CursorAtPosition(position)),
        Call::Render(_) => unreachable!(),
    }
}
