// Makes the calls of keys on a text area.
ghost use Rattle.std.specs.Prelude.{◌≡◌, ◌∷◌, [], map, OnErr, OnOk};
ghost use Rattle.textarea_calls.specs.declared.call.Call.TheVariants.{Move};
ghost use Rattle.textarea_modal.specs.Calls.{key_call, step_calls};
ghost use Rattle.textarea_modal.specs.Runs.{AllMade, OneRunsOut};
ghost use Rattle.textarea_modal.specs.Table.{passed_on};
ghost use Rattle.textarea_data.specs.declared.input.Input.{Input};
ghost use Rattle.tui_textarea.specs.Input.{asked_by};

use crate::step::{KeyCall, Step};
use std::alloc::AllocError;
use textarea_calls::Action;
use textarea_data::cursor::CursorMove;
use textarea_run::perform::make;
use tui_textarea::TextArea;
use tui_textarea::outcomes::laws::others_edit_nothing;

// Makes the calls of the step, until one runs out of memory.
pub fn make_step(area: &mut TextArea<'_>, step: &Step) -> Result<(), AllocError>
    ensures ok { OnOk result (AllMade area.old (step_calls step.now).calls area.new) }
    ensures err { OnErr result (OneRunsOut area.old (step_calls step.now).calls area.new) }
{
    match step.motion {
        Some(cursor_move) => move_and_make(area, cursor_move, step.calls),
        None => make_all(area, step.calls),
    }
}

// Makes the move, then the calls.
fn move_and_make(
    area: &mut TextArea<'_>,
    cursor_move: CursorMove,
    calls: &[KeyCall],
) -> Result<(), AllocError>
    ensures ok { OnOk result
        (AllMade area.old (Move cursor_move ∷ map key_call calls.now) area.new) }
    ensures err { OnErr result
        (OneRunsOut area.old (Move cursor_move ∷ map key_call calls.now) area.new) }
{
    others_edit_nothing();
    area.move_cursor(cursor_move);
    make_all(area, calls)
}

// Makes the calls one after another, until one runs out of memory.
fn make_all(area: &mut TextArea<'_>, calls: &[KeyCall]) -> Result<(), AllocError>
    ensures ok { OnOk result (AllMade area.old (map key_call calls.now) area.new) }
    ensures err { OnErr result (OneRunsOut area.old (map key_call calls.now) area.new) }
{
    others_edit_nothing();
    for call in calls {
        make(area, call.call())?;
    }
    Ok(())
}

/// Makes the text area's action for an input, and returns whether the text changed. It is the run of
/// one call, `Call::Input`, for each input of that action.
pub fn pass_on(area: &mut TextArea<'_>, action: Action) -> Result<bool, AllocError>
    ensures ok { OnOk result ((input : Input) → asked_by input ≡ action →
        AllMade area.old (passed_on input ∷ []) area.new) }
    ensures err { OnErr result ((input : Input) → asked_by input ≡ action →
        OneRunsOut area.old (passed_on input ∷ []) area.new) }
{
    others_edit_nothing();
    area.act(action)
}
