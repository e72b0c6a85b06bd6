// Written by tools/calls from crates/textarea_calls/calls.txt.
// The calls of commands that borrow nothing, and whose arguments are read by their types.
ghost use Rattle.std.specs.Prelude.{◌≡◌, IfSome, option_map};
ghost use Rattle.textarea_calls.specs.Possible.{CanBeMade};
ghost use Rattle.textarea_script_syntax.specs.CallCommands.{call_meaning};
ghost use Rattle.textarea_script_syntax.specs.Commands.{plain_meaning};
ghost use Rattle.textarea_script_syntax.specs.Script.{meaning_of};
ghost use Rattle.textarea_script_syntax.specs.declared.commands.CommandContent.TheVariants.{Plain};

use crate::arguments::{
    byte_number, change_unit_named, cursor_unit_named, mode_named, move_named, one_character,
    scroll_amounts, short_number, size, size_or_none, truth, two_numbers,
};
use textarea_calls::Call;

// The call of this name without arguments.
#[tactic(auto, unfolding(crate::specs::Commands::plain_meaning))]
pub fn call_without_arguments(name: &str) -> Option<Call<'static>>
    ensures ready { IfSome result CanBeMade }
    ensures means { option_map (λ call. meaning_of (Plain call)) result
        ≡ plain_meaning name.now None }
{
    match name {
        "insert_newline" => Some(Call::InsertNewline),
        "insert_tab" => Some(Call::InsertTab),
        "paste" => Some(Call::Paste),
        "duplicate_line" => Some(Call::DuplicateLine),
        "indent_lines" => Some(Call::IndentLines),
        "outdent_lines" => Some(Call::OutdentLines),
        "move_lines_up" => Some(Call::MoveLinesUp),
        "move_lines_down" => Some(Call::MoveLinesDown),
        "delete_char" => Some(Call::DeleteChar),
        "delete_next_char" => Some(Call::DeleteNextChar),
        "delete_newline" => Some(Call::DeleteNewline),
        "delete_line_by_end" => Some(Call::DeleteLineByEnd),
        "delete_line_by_head" => Some(Call::DeleteLineByHead),
        "delete_word" => Some(Call::DeleteWord),
        "delete_next_word" => Some(Call::DeleteNextWord),
        "clear" => Some(Call::Clear),
        "cut" => Some(Call::Cut),
        "undo" => Some(Call::Undo),
        "redo" => Some(Call::Redo),
        "begin_undo_group" => Some(Call::BeginUndoGroup),
        "end_undo_group" => Some(Call::EndUndoGroup),
        "end_run" => Some(Call::EndRun),
        "take_changes" => Some(Call::TakeChanges),
        "start_selection" => Some(Call::StartSelection),
        "cancel_selection" => Some(Call::CancelSelection),
        "select_all" => Some(Call::SelectAll),
        "copy" => Some(Call::Copy),
        "clear_mask_char" => Some(Call::ClearMaskChar),
        "text" => Some(Call::Text),
        "match_count" => Some(Call::MatchCount),
        "match_index" => Some(Call::MatchIndex),
        "yank_text" => Some(Call::YankText),
        _ => None,
    }
}

// The call of this name and these arguments, which are read by their types.
#[tactic(auto, unfolding(crate::specs::CallCommands::call_meaning))]
pub fn call_with_arguments(name: &str, arguments: &str) -> Option<Call<'static>>
    ensures ready { IfSome result CanBeMade }
    ensures means { option_map (λ call. meaning_of (Plain call)) result
        ≡ call_meaning name.now (Some arguments.now) }
{
    match name {
        "insert_char" => Some(Call::InsertChar(one_character(arguments)?)),
        "delete_str" => Some(Call::DeleteStr(size(arguments)?)),
        "set_max_histories" => Some(Call::SetMaxHistories(size(arguments)?)),
        "set_undo_coalescing" => Some(Call::SetUndoCoalescing(truth(arguments)?)),
        "set_undo_grouping" => Some(Call::SetUndoGrouping(truth(arguments)?)),
        "set_undo_ranges" => Some(Call::SetUndoRanges(truth(arguments)?)),
        "set_change_log" => Some(Call::SetChangeLog(change_unit_named(arguments)?)),
        "move" => Some(Call::Move(move_named(arguments)?)),
        "go_to" => Some(Call::GoTo(two_numbers(arguments)?)),
        "scroll" => Some(Call::Scroll(scroll_amounts(arguments)?)),
        "search_forward" => Some(Call::SearchForward(truth(arguments)?)),
        "search_back" => Some(Call::SearchBack(truth(arguments)?)),
        "set_tab_length" => Some(Call::SetTabLength(byte_number(arguments)?)),
        "set_hard_tab_indent" => Some(Call::SetHardTabIndent(truth(arguments)?)),
        "set_read_only" => Some(Call::SetReadOnly(truth(arguments)?)),
        "set_single_line" => Some(Call::SetSingleLine(truth(arguments)?)),
        "set_max_chars" => Some(Call::SetMaxChars(size_or_none(arguments)?)),
        "set_cursor_unit" => Some(Call::SetCursorUnit(cursor_unit_named(arguments)?)),
        "set_wrap_mode" => Some(Call::SetWrapMode(mode_named(arguments)?)),
        "set_mask_char" => Some(Call::SetMaskChar(one_character(arguments)?)),
        "measure" => Some(Call::Measure(short_number(arguments)?)),
        _ => None,
    }
}
