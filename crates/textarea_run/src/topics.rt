// Written by tools/calls from crates/textarea_calls/calls.txt.
// The calls of each topic, made on a text area.
ghost use Rattle.std.specs.Prelude.{◌≡◌, IfOk, OnErr};
ghost use Rattle.textarea_calls.specs.Possible.{CanBeMade};
ghost use Rattle.textarea_calls.specs.Topics.{call_of_appearance, call_of_changes, call_of_history, call_of_insert, call_of_keys, call_of_move, call_of_options, call_of_ranges, call_of_read, call_of_remove, call_of_search, call_of_select};
ghost use Rattle.tui_textarea.specs.CallResults.{call_result};
ghost use Rattle.tui_textarea.specs.Outcomes.{IsAfterCall, IsResultOf, RanOutOfMemory};

use crate::inputs::copied;
use crate::special;
use std::alloc::AllocError;
use textarea_calls::Answer;
use textarea_calls::topic::{
    AppearanceCall, ChangesCall, HistoryCall, InsertCall, KeysCall, MoveCall, OptionsCall,
    RangesCall, ReadCall, RemoveCall, SearchCall, SelectCall,
};
use tui_textarea::TextArea;

/// Insertions at the cursor, and new lines.
pub(crate) fn insert_call(
    area: &mut TextArea<'_>,
    call: InsertCall<'_>,
) -> Result<Answer, AllocError>
    requires { CanBeMade (call_of_insert call) }
    ensures answer { IfOk result
        (λ answer. IsResultOf area.old (call_of_insert call.entry) (call_result answer)) }
    ensures ok { IfOk result
        (λ answer. IsAfterCall area.old (call_of_insert call.entry) (call_result answer) area.new) }
    ensures err { OnErr result (RanOutOfMemory area.old (call_of_insert call.entry) area.new) }
{
    match call {
        InsertCall::InsertChar(c) => area.insert_char(c).map(|()| Answer::Done),
        InsertCall::InsertNewline => area.insert_newline().map(|()| Answer::Done),
        InsertCall::InsertStr(text) => area.insert_str(text).map(Answer::Flag),
        InsertCall::InsertPasted(text) => area.insert_pasted(text).map(Answer::Flag),
        InsertCall::InsertTab => area.insert_tab().map(Answer::Flag),
        InsertCall::Paste => area.paste().map(Answer::Flag),
        InsertCall::DuplicateLine => area.duplicate_line().map(|()| Answer::Done),
        InsertCall::IndentLines => area.indent_lines().map(Answer::Flag),
        InsertCall::OutdentLines => area.outdent_lines().map(Answer::Flag),
        InsertCall::MoveLinesUp => area.move_lines_up().map(Answer::Flag),
        InsertCall::MoveLinesDown => area.move_lines_down().map(Answer::Flag),
        InsertCall::ReplaceRange { from, to, text } => area
            .replace_range(from, to, text)
            .map(Answer::Flag),
        InsertCall::SetLines { lines, cursor } => {
            special::set_lines(area, lines, cursor).map(|()| Answer::Done)
        }
    }
}

/// Removals.
pub(crate) fn remove_call(area: &mut TextArea<'_>, call: RemoveCall) -> Result<Answer, AllocError>
    ensures answer { IfOk result
        (λ answer. IsResultOf area.old (call_of_remove call) (call_result answer)) }
    ensures ok { IfOk result
        (λ answer. IsAfterCall area.old (call_of_remove call) (call_result answer) area.new) }
    ensures err { OnErr result (RanOutOfMemory area.old (call_of_remove call) area.new) }
{
    match call {
        RemoveCall::DeleteChar => area.delete_char().map(Answer::Flag),
        RemoveCall::DeleteNextChar => area.delete_next_char().map(Answer::Flag),
        RemoveCall::DeleteNewline => area.delete_newline().map(Answer::Flag),
        RemoveCall::DeleteStr(count) => area.delete_str(count).map(Answer::Flag),
        RemoveCall::DeleteLineByEnd => area.delete_line_by_end().map(Answer::Flag),
        RemoveCall::DeleteLineByHead => area.delete_line_by_head().map(Answer::Flag),
        RemoveCall::DeleteWord => area.delete_word().map(Answer::Flag),
        RemoveCall::DeleteNextWord => area.delete_next_word().map(Answer::Flag),
        RemoveCall::Clear => area.clear().map(Answer::Flag),
        RemoveCall::Cut => area.cut().map(Answer::Flag),
    }
}

/// Undo and redo, and settings of the history.
pub(crate) fn history_call(area: &mut TextArea<'_>, call: HistoryCall) -> Result<Answer, AllocError>
    ensures answer { IfOk result
        (λ answer. IsResultOf area.old (call_of_history call) (call_result answer)) }
    ensures ok { IfOk result
        (λ answer. IsAfterCall area.old (call_of_history call) (call_result answer) area.new) }
    ensures err { OnErr result (RanOutOfMemory area.old (call_of_history call) area.new) }
{
    match call {
        HistoryCall::Undo => area.undo().map(Answer::Flag),
        HistoryCall::Redo => area.redo().map(Answer::Flag),
        HistoryCall::SetMaxHistories(maximum) => {
            area.set_max_histories(maximum);
            Ok(Answer::Done)
        }
        HistoryCall::SetUndoCoalescing(joins) => {
            area.set_undo_coalescing(joins);
            Ok(Answer::Done)
        }
        HistoryCall::SetUndoGrouping(groups) => {
            area.set_undo_grouping(groups);
            Ok(Answer::Done)
        }
        HistoryCall::SetUndoRanges(on) => {
            area.set_undo_ranges(on);
            Ok(Answer::Done)
        }
        HistoryCall::BeginUndoGroup => {
            area.begin_undo_group();
            Ok(Answer::Done)
        }
        HistoryCall::EndUndoGroup => {
            area.end_undo_group();
            Ok(Answer::Done)
        }
        HistoryCall::EndRun => {
            area.end_run();
            Ok(Answer::Done)
        }
        HistoryCall::SetNow(time) => {
            area.set_now(time);
            Ok(Answer::Done)
        }
    }
}

/// What changed in the text.
pub(crate) fn changes_call(area: &mut TextArea<'_>, call: ChangesCall) -> Result<Answer, AllocError>
    ensures answer { IfOk result
        (λ answer. IsResultOf area.old (call_of_changes call) (call_result answer)) }
    ensures ok { IfOk result
        (λ answer. IsAfterCall area.old (call_of_changes call) (call_result answer) area.new) }
    ensures err { OnErr result (RanOutOfMemory area.old (call_of_changes call) area.new) }
{
    match call {
        ChangesCall::SetChangeLog(unit) => {
            area.set_change_log(unit);
            Ok(Answer::Done)
        }
        ChangesCall::TakeChanges => Ok(Answer::Changes(area.take_changes())),
    }
}

/// The selection, and what is yanked.
pub(crate) fn select_call(
    area: &mut TextArea<'_>,
    call: SelectCall<'_>,
) -> Result<Answer, AllocError>
    ensures answer { IfOk result
        (λ answer. IsResultOf area.old (call_of_select call.entry) (call_result answer)) }
    ensures ok { IfOk result
        (λ answer. IsAfterCall area.old (call_of_select call.entry) (call_result answer) area.new) }
    ensures err { OnErr result (RanOutOfMemory area.old (call_of_select call.entry) area.new) }
{
    match call {
        SelectCall::StartSelection => {
            area.start_selection();
            Ok(Answer::Done)
        }
        SelectCall::CancelSelection => {
            area.cancel_selection();
            Ok(Answer::Done)
        }
        SelectCall::SelectAll => {
            area.select_all();
            Ok(Answer::Done)
        }
        SelectCall::Copy => area.copy().map(|()| Answer::Done),
        SelectCall::SetYankText(text) => area.set_yank_text(text).map(|()| Answer::Done),
    }
}

/// Moves of the cursor, and scrolls.
pub(crate) fn move_call(area: &mut TextArea<'_>, call: MoveCall) -> Result<Answer, AllocError>
    ensures answer { IfOk result
        (λ answer. IsResultOf area.old (call_of_move call) (call_result answer)) }
    ensures ok { IfOk result
        (λ answer. IsAfterCall area.old (call_of_move call) (call_result answer) area.new) }
    ensures err { OnErr result (RanOutOfMemory area.old (call_of_move call) area.new) }
{
    match call {
        MoveCall::Move(cursor_move) => {
            area.move_cursor(cursor_move);
            Ok(Answer::Done)
        }
        MoveCall::GoTo(place) => {
            area.go_to(place);
            Ok(Answer::Done)
        }
        MoveCall::Scroll(scrolling) => {
            area.scroll(scrolling);
            Ok(Answer::Done)
        }
    }
}

/// Searches.
pub(crate) fn search_call(
    area: &mut TextArea<'_>,
    call: SearchCall<'_>,
) -> Result<Answer, AllocError>
    ensures answer { IfOk result
        (λ answer. IsResultOf area.old (call_of_search call.entry) (call_result answer)) }
    ensures ok { IfOk result
        (λ answer. IsAfterCall area.old (call_of_search call.entry) (call_result answer) area.new) }
    ensures err { OnErr result (RanOutOfMemory area.old (call_of_search call.entry) area.new) }
{
    match call {
        SearchCall::SetSearchPattern(pattern) => special::set_search_pattern(area, pattern),
        SearchCall::SetSearchText {
            text,
            ignore_case,
            whole_word,
        } => special::set_search_text(area, text, ignore_case, whole_word),
        SearchCall::SearchForward(match_cursor) => area
            .search_forward(match_cursor)
            .map(Answer::Flag),
        SearchCall::SearchBack(match_cursor) => area.search_back(match_cursor).map(Answer::Flag),
        SearchCall::ReplaceMatch(text) => area.replace_match(text).map(Answer::Flag),
        SearchCall::ReplaceAll(text) => area.replace_all(text).map(Answer::Number),
    }
}

/// Atomic ranges.
pub(crate) fn ranges_call(
    area: &mut TextArea<'_>,
    call: RangesCall<'_>,
) -> Result<Answer, AllocError>
    ensures answer { IfOk result
        (λ answer. IsResultOf area.old (call_of_ranges call.entry) (call_result answer)) }
    ensures ok { IfOk result
        (λ answer. IsAfterCall area.old (call_of_ranges call.entry) (call_result answer) area.new) }
    ensures err { OnErr result (RanOutOfMemory area.old (call_of_ranges call.entry) area.new) }
{
    match call {
        RangesCall::TrySetAtomicRanges(ranges) => special::try_set_atomic_ranges(area, ranges),
        RangesCall::ClearAtomicRanges => {
            area.clear_atomic_ranges();
            Ok(Answer::Done)
        }
        RangesCall::NormalizeCursorAroundAtomicRanges(bias) => {
            Ok(Answer::Flag(area.normalize_cursor_around_atomic_ranges(bias)))
        }
        RangesCall::AtomicRangeAtCursor(direction) => {
            Ok(Answer::Range(area.atomic_range_at_cursor(direction)))
        }
        RangesCall::DeleteAtomicRangeAtCursor(direction) => area
            .delete_atomic_range_at_cursor(direction)
            .map(Answer::Range),
    }
}

/// Settings of tabs, of what may be edited, of wrapping, line numbers and heights.
pub(crate) fn options_call(area: &mut TextArea<'_>, call: OptionsCall) -> Result<Answer, AllocError>
    ensures answer { IfOk result
        (λ answer. IsResultOf area.old (call_of_options call) (call_result answer)) }
    ensures ok { IfOk result
        (λ answer. IsAfterCall area.old (call_of_options call) (call_result answer) area.new) }
    ensures err { OnErr result (RanOutOfMemory area.old (call_of_options call) area.new) }
{
    match call {
        OptionsCall::SetTabLength(columns) => area.set_tab_length(columns).map(|()| Answer::Done),
        OptionsCall::SetHardTabIndent(hard) => {
            area.set_hard_tab_indent(hard);
            Ok(Answer::Done)
        }
        OptionsCall::SetReadOnly(read_only) => {
            area.set_read_only(read_only);
            Ok(Answer::Done)
        }
        OptionsCall::SetSingleLine(single_line) => {
            Ok(Answer::Flag(area.set_single_line(single_line)))
        }
        OptionsCall::SetMaxChars(maximum) => {
            area.set_max_chars(maximum);
            Ok(Answer::Done)
        }
        OptionsCall::SetCursorUnit(unit) => {
            area.set_cursor_unit(unit);
            Ok(Answer::Done)
        }
        OptionsCall::SetWrapMode(mode) => area.set_wrap_mode(mode).map(|()| Answer::Done),
        OptionsCall::SetLineNumberStyle(style) => area
            .set_line_number_style(style)
            .map(|()| Answer::Done),
        OptionsCall::RemoveLineNumber => area.remove_line_number().map(|()| Answer::Done),
        OptionsCall::SetAlignment(alignment) => area
            .set_alignment(alignment)
            .map(|()| Answer::Done),
        OptionsCall::SetMinRows(rows) => {
            area.set_min_rows(rows);
            Ok(Answer::Done)
        }
        OptionsCall::SetMaxRows(rows) => {
            area.set_max_rows(rows);
            Ok(Answer::Done)
        }
    }
}

/// Settings of how the text and its surroundings look.
pub(crate) fn appearance_call(
    area: &mut TextArea<'_>,
    call: AppearanceCall<'_>,
) -> Result<Answer, AllocError>
    ensures answer { IfOk result
        (λ answer. IsResultOf area.old (call_of_appearance call.entry) (call_result answer)) }
    ensures ok { IfOk result
        (λ answer. IsAfterCall area.old (call_of_appearance call.entry) (call_result answer) area.new) }
    ensures err { OnErr result (RanOutOfMemory area.old (call_of_appearance call.entry) area.new) }
{
    match call {
        AppearanceCall::SetBlock(block) => special::set_block(area, block).map(|()| Answer::Done),
        AppearanceCall::RemoveBlock => {
            area.remove_block();
            Ok(Answer::Done)
        }
        AppearanceCall::SetPlaceholderText(text) => area
            .set_placeholder_text(text)
            .map(|()| Answer::Done),
        AppearanceCall::SetStyledPlaceholder(text) => {
            special::set_styled_placeholder(area, text).map(|()| Answer::Done)
        }
        AppearanceCall::SetPlaceholderStyle(style) => {
            area.set_placeholder_style(style);
            Ok(Answer::Done)
        }
        AppearanceCall::SetStyle(style) => {
            area.set_style(style);
            Ok(Answer::Done)
        }
        AppearanceCall::SetCursorStyle(style) => {
            area.set_cursor_style(style);
            Ok(Answer::Done)
        }
        AppearanceCall::SetCursorLineStyle(style) => {
            area.set_cursor_line_style(style);
            Ok(Answer::Done)
        }
        AppearanceCall::SetCursorLineNumberStyle(style) => {
            area.set_cursor_line_number_style(style);
            Ok(Answer::Done)
        }
        AppearanceCall::SetSelectionStyle(style) => {
            area.set_selection_style(style);
            Ok(Answer::Done)
        }
        AppearanceCall::SetSearchStyle(style) => {
            area.set_search_style(style);
            Ok(Answer::Done)
        }
        AppearanceCall::SetMaskChar(mask) => {
            area.set_mask_char(mask);
            Ok(Answer::Done)
        }
        AppearanceCall::ClearMaskChar => {
            area.clear_mask_char();
            Ok(Answer::Done)
        }
        AppearanceCall::SetCursorRenderMode(mode) => {
            area.set_cursor_render_mode(mode);
            Ok(Answer::Done)
        }
        AppearanceCall::CustomHighlight {
            range,
            style,
            priority,
        } => area
            .custom_highlight(range, style, priority)
            .map(|()| Answer::Done),
        AppearanceCall::ClearCustomHighlight => {
            area.clear_custom_highlight();
            Ok(Answer::Done)
        }
    }
}

/// Inputs, by one of the two key tables.
pub(crate) fn keys_call(area: &mut TextArea<'_>, call: KeysCall<'_>) -> Result<Answer, AllocError>
    ensures answer { IfOk result
        (λ answer. IsResultOf area.old (call_of_keys call.entry) (call_result answer)) }
    ensures ok { IfOk result
        (λ answer. IsAfterCall area.old (call_of_keys call.entry) (call_result answer) area.new) }
    ensures err { OnErr result (RanOutOfMemory area.old (call_of_keys call.entry) area.new) }
{
    match call {
        KeysCall::Input(input) => area.input(copied(input)).map(Answer::Flag),
        KeysCall::InputWithoutShortcuts(input) => area
            .input_without_shortcuts(copied(input))
            .map(Answer::Flag),
    }
}

/// Calls that only return something.
pub(crate) fn read_call(area: &mut TextArea<'_>, call: ReadCall) -> Result<Answer, AllocError>
    ensures answer { IfOk result
        (λ answer. IsResultOf area.old (call_of_read call) (call_result answer)) }
    ensures ok { IfOk result
        (λ answer. IsAfterCall area.old (call_of_read call) (call_result answer) area.new) }
    ensures err { OnErr result (RanOutOfMemory area.old (call_of_read call) area.new) }
{
    match call {
        ReadCall::Text => area.text().map(Answer::Text),
        ReadCall::TextRange { from, to } => area.text_range(from, to).map(Answer::Text),
        ReadCall::Cursor => Ok(Answer::Cursor(area.cursor())),
        ReadCall::IsEmpty => Ok(Answer::Flag(area.is_empty())),
        ReadCall::IsSelecting => Ok(Answer::Flag(area.is_selecting())),
        ReadCall::SelectionRange => Ok(Answer::Selection(area.selection_range())),
        ReadCall::MatchCount => area.match_count().map(Answer::Number),
        ReadCall::MatchIndex => area.match_index().map(Answer::NumberIfAny),
        ReadCall::YankText => area.yank_text().map(Answer::Text),
        ReadCall::MaxHistories => Ok(Answer::Number(area.max_histories())),
        ReadCall::UndoCoalescing => Ok(Answer::Flag(area.undo_coalescing())),
        ReadCall::UndoGrouping => Ok(Answer::Flag(area.undo_grouping())),
        ReadCall::UndoRanges => Ok(Answer::Flag(area.undo_ranges())),
        ReadCall::ReadOnly => Ok(Answer::Flag(area.read_only())),
        ReadCall::SingleLine => Ok(Answer::Flag(area.single_line())),
        ReadCall::MaxChars => Ok(Answer::NumberIfAny(area.max_chars())),
        ReadCall::CursorUnit => Ok(Answer::CursorUnit(area.cursor_unit())),
        ReadCall::TabLength => Ok(Answer::Number(area.tab_length() as usize)),
        ReadCall::HardTabIndent => Ok(Answer::Flag(area.hard_tab_indent())),
        ReadCall::WrapMode => Ok(Answer::WrapMode(area.wrap_mode())),
        ReadCall::LineNumberStyle => Ok(Answer::StyleIfVisible(area.line_number_style())),
        ReadCall::Alignment => Ok(Answer::Alignment(area.alignment())),
        ReadCall::MinRows => Ok(Answer::Number(area.min_rows() as usize)),
        ReadCall::MaxRows => Ok(Answer::Number(area.max_rows() as usize)),
        ReadCall::Measure(width) => area.measure(width).map(Answer::Measured),
        ReadCall::PlaceholderStyle => Ok(Answer::StyleIfVisible(area.placeholder_style())),
        ReadCall::Style => Ok(Answer::Style(area.style())),
        ReadCall::CursorStyle => Ok(Answer::Style(area.cursor_style())),
        ReadCall::CursorLineStyle => Ok(Answer::Style(area.cursor_line_style())),
        ReadCall::CursorLineNumberStyle => Ok(Answer::Style(area.cursor_line_number_style())),
        ReadCall::SelectionStyle => Ok(Answer::Style(area.selection_style())),
        ReadCall::SearchStyle => Ok(Answer::Style(area.search_style())),
        ReadCall::MaskChar => Ok(Answer::Character(area.mask_char())),
        ReadCall::CursorRenderMode => Ok(Answer::CursorRenderMode(area.cursor_render_mode())),
        ReadCall::RenderedCursorPosition => Ok(Answer::Position(area.rendered_cursor_position())),
        ReadCall::CursorAtPosition(position) => area
            .cursor_at_position(position)
            .map(Answer::Place),
    }
}
