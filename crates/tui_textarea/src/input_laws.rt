//! Laws of inputs, each the contract of a function that does nothing. The key tables turn an input
//! into an action, so the laws are about actions: what `input`, `input_without_shortcuts` and `act`
//! leave, and also the call that is named by the action.
ghost use Rattle.std.specs.Prelude.{◌≡◌, ◌++◌, ◌∷◌, [], Bool, List};
ghost use Rattle.std.specs.declared.time.Duration.{Duration};
ghost use Rattle.textarea_data.specs.declared.input.Input.{Input};
ghost use Rattle.textarea_text.specs.Text.{Symbol};
ghost use Rattle.tui_textarea.specs.ActionTexts.{AllPass, CoversAsBefore, InsertsPassing, IsAfterAllTimed, IsAfterTimed, IsLeftByAction};
ghost use Rattle.tui_textarea.specs.Prelude.{Action, IsSound, State};

use crate::laws::one_input;
use textarea_document::laws::{ranges_cover_no_more, ranges_follow_splices};

/// Each symbol of the text after an action was in the text before, or the action inserted it: if all
/// symbols passed a test, and those that the action inserts do, all pass it after the action. So no
/// action but one that inserts a line break makes a second line. The same holds after an action that
/// ran out of memory.
pub fn symbols_stay_or_are_inserted()
    ensures { (test : Symbol → Bool) (old new : State) (asked : Action) → IsSound old.document →
        IsLeftByAction old asked new → InsertsPassing test old asked →
        AllPass test old.document.text → AllPass test new.document.text }
{
    ranges_follow_splices();
}

/// The characters that a range covers after an action, one that is there or that is remembered for
/// undo and redo, are those that such a range covered before it, also after an action that ran out of
/// memory. So a range that marks a name or a link is kept with all its characters, or is gone, or is
/// given back.
pub fn ranges_cover_as_before()
    ensures { (old new : State) (asked : Action) → IsSound old.document →
        IsLeftByAction old asked new → CoversAsBefore old new }
{
    ranges_cover_no_more();
}

/// Inputs, each made at its time, lead from one state to one state: a replay on a copy gives what was
/// recorded. After more of them the text area is where all of them lead.
pub fn replays_agree()
    ensures one { (timed : List (Input × Duration)) (old first second : State) →
        IsAfterAllTimed old timed first → IsAfterAllTimed old timed second → first ≡ second }
    ensures more { (timed : List (Input × Duration)) (next : Input × Duration)
        (old between new : State) → IsAfterAllTimed old timed between →
        IsAfterTimed between next new → IsAfterAllTimed old (timed ++ next ∷ []) new }
{
    one_input();
}
