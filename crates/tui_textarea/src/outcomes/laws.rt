//! Laws of runs of calls, each the contract of a function that does nothing.
ghost use Rattle.std.specs.Prelude.{◌≡◌, ◌≤◌, ℕ, false, [], All, List, Option, Some};
ghost use Rattle.textarea_data.specs.declared.cursor.CursorUnit.TheVariants.{Cluster};
ghost use Rattle.textarea_document.specs.Indenting.{line_stretches};
ghost use Rattle.tui_textarea.specs.CallUnits.{TakesParts};
ghost use Rattle.tui_textarea.specs.Replacing.{replaceable};
ghost use Rattle.tui_textarea.specs.Units.{AreWholeStretches, FirstTakesWhole, GoesByClusters};
ghost use Rattle.tui_textarea.specs.Prelude.{Answer, CanApply, CanBeMade, CoversNoMore, SetsRanges, ChangesFollow, ChangesLead, ChangesOfRun, SetsLines, SetsLog, taken_by, RangesOfRun, Run, SplicedBy, SplitNoRange, RangesStayWhole, IsSettled, IsSound, Buffer, State, WrapsByCall, Call, RangesFollowCall, IsUndoOrRedo, IsResultOf, IsAfterCall, IsAfterOutOfMemory, Leads, ShowsSame, CallResult, OfSplicesOutOfMemory, edits, is_editable, splices_of};

use crate::drawing::laws::{one_drawing, one_rendering};
use crate::laws::{one_input, one_move};
use textarea_document::laws::{
    changes_lead, edits_wrap, layout_changes_wrap, ranges_follow_splices,
};
use textarea_screen_map::laws::look_up_leads_back;

/// Calls with these results lead to one state of the text area, whatever the buffers.
pub fn one_end()
    ensures { (calls : List Call) (results : List CallResult) (old first second : State)
        (buffer other displayed drawn : Buffer) →
        Leads old buffer calls results first displayed → Leads old other calls results second drawn
        →
        first ≡ second }
{
    one_move();
    one_input();
    one_rendering();
}

/// From buffers with the same cells they lead to buffers with the same cells.
pub fn one_screen()
    ensures { (calls : List Call) (results : List CallResult) (old first second : State)
        (buffer other displayed drawn : Buffer) →
        Leads old buffer calls results first displayed → Leads old other calls results second drawn
        →
        ShowsSame buffer other → ShowsSame displayed drawn }
{
    one_move();
    one_input();
    one_rendering();
    one_drawing();
}

/// Which lines each call wraps, in every state that a text area has. Edits wrap what their splices
/// wrap, which lead from the old text and rows to the new ones. An undo, a redo, and the calls that
/// replace all matches, indent or outdent lines wrap each line that one of their splices touches,
/// once, and no other, unless these change the width of the map of visual rows. New lines, a setting
/// that changes the layout, and a drawing that changes that width wrap all lines. Every other call
/// wraps none, and leaves the text, its rows and the wrap counter. A call that runs out of memory
/// has made no splice, or only the one that removes the selected text.
pub fn each_call_wraps()
    ensures made { (old new : State) (call : Call) (returned : CallResult) → IsSound old.document →
        IsAfterCall old call returned new → WrapsByCall old call new }
    ensures out_of_memory { (old new : State) (call : Call) → IsSound old.document →
        IsAfterOutOfMemory old call new →
        OfSplicesOutOfMemory old (λ splices. SplicedBy old.document splices new.document) }
{
    edits_wrap();
    layout_changes_wrap();
}

/// No call decreases the wrap counter, even if it runs out of memory.
pub fn count_never_falls()
    ensures made { (old new : State) (call : Call) (returned : CallResult) → IsSound old.document →
        IsAfterCall old call returned new →
        old.document.layout.count ≤ new.document.layout.count }
    ensures out_of_memory { (old new : State) (call : Call) → IsSound old.document →
        IsAfterOutOfMemory old call new → old.document.layout.count ≤ new.document.layout.count }
{
    each_call_wraps();
    textarea_lines::laws::count_never_falls();
}

/// How the atomic ranges move over each call, in every state that a text area has: with the text,
/// over the call's splices, which lead from the old text to the new one, but over those of an undo or
/// a redo only if no ranges are remembered; only these may split a range. New lines and the call that
/// clears the ranges leave none, and accepted ranges replace the old ones. A call that runs out of
/// memory has made no splice, or only the one that removes the selected text.
pub fn ranges_follow_each_call()
    ensures made { (old new : State) (call : Call) (returned : CallResult) → IsSound old.document →
        IsResultOf old call returned → IsAfterCall old call returned new →
        RangesFollowCall old call returned new }
    ensures out_of_memory { (old new : State) (call : Call) → IsSound old.document →
        IsAfterOutOfMemory old call new →
        OfSplicesOutOfMemory old (λ splices. RangesStayWhole old.document splices new.document) }
{
    ranges_follow_splices();
}

/// What the atomic ranges cover over each call that doesn't set them, in every state that a text area
/// has: each range after it, one that is there or that is remembered for undo and redo, covers
/// characters that such a range covered before. So each stems from the last ones that were set.
pub fn ranges_cover_no_more()
    ensures made { (old new : State) (call : Call) (returned : CallResult) → IsSound old.document →
        ¬ SetsRanges call returned → IsResultOf old call returned →
        IsAfterCall old call returned new → CoversNoMore old.document new.document }
    ensures out_of_memory { (old new : State) (call : Call) → IsSound old.document →
        IsAfterOutOfMemory old call new → CoversNoMore old.document new.document }
{
    textarea_document::laws::ranges_cover_no_more();
}

/// In every state that a text area has, the splices of each call fit the text, one after another.
/// Except for undo and redo, none splits a range: each inserts outside the inside of every range,
/// and removes a range completely or not at all.
pub fn splices_split_no_range()
    ensures fit { (state : State) (call : Call) → IsSound state.document →
        CanApply state.document.text (splices_of state call) }
    ensures split_none { (state : State) (call : Call) → IsSound state.document →
        ¬ IsUndoOrRedo call → SplitNoRange state.document.ranges (splices_of state call) }
{
    ranges_follow_splices();
}

/// A call that doesn't edit, by `Call::edits`, makes no splice in any state, and leaves the text as
/// it is.
pub fn others_edit_nothing()
    ensures no_splice { (state : State) (call : Call) → edits call ≡ false →
        splices_of state call ≡ [] }
    ensures text { (old new : State) (call : Call) (returned : CallResult) → edits call ≡ false →
        IsAfterCall old call returned new → new.document.text ≡ old.document.text }
{}

/// In a text area that is read only no call but `set_lines` changes the text.
pub fn read_only_texts_stay()
    ensures { (old new : State) (call : Call) (returned : CallResult) → is_editable old ≡ false →
        ¬ SetsLines call → IsAfterCall old call returned new →
        new.document.text ≡ old.document.text }
{}

/// If the cursor goes by clusters, and neither a cluster nor an atomic range strictly contains the
/// cursor or the selection's beginning, none does after any call that can be made, nor after one that
/// runs out of memory. While it goes by characters, as at first, they may be anywhere; the call that
/// sets the unit moves them out.
pub fn settled_states_stay()
    ensures made { (old new : State) (call : Call) (returned : CallResult) → IsSound old.document →
        IsSettled old → CanBeMade call → IsAfterCall old call returned new → IsSettled new }
    ensures out_of_memory { (old new : State) (call : Call) → IsSound old.document →
        IsSettled old → IsAfterOutOfMemory old call new → IsSettled new }
{
    look_up_leads_back();
}

/// The same over every run of calls that can be made.
pub fn settled_runs_stay()
    ensures { (calls : List Call) (answers : List Answer) (refused : Option ℕ) (old new : State)
        (buffer displayed : Buffer) → IsSound old.document → IsSettled old →
        All CanBeMade calls → Run old buffer calls answers refused new displayed → IsSettled new }
{
    each_call_stays_sound();
    settled_states_stay();
}

/// If the cursor goes by clusters, what the first removal of a call takes begins and ends where neither
/// a cluster nor an atomic range of the text strictly contains the position. So do all matches that
/// `replace_all` replaces, and all that `outdent_lines` removes. `delete_str`, undo and redo may take
/// parts of clusters.
pub fn removals_take_whole_clusters()
    ensures first { (state : State) (call : Call) → IsSound state.document →
        GoesByClusters state → IsSettled state → ¬ TakesParts call →
        FirstTakesWhole state.document (splices_of state call) }
    ensures matches { (state : State) → GoesByClusters state →
        AreWholeStretches state.document (replaceable state) }
    ensures starts { (state : State) →
        AreWholeStretches state.document (line_stretches state.document (Some Cluster)) }
{}

/// Every call that can be made keeps the invariant of documents, in every state: cursor and anchor
/// stay positions of the text, ranges valid for it and sorted, and both history lists such that
/// they can be undone and redone. So does every call that runs out of memory.
pub fn each_call_stays_sound()
    ensures made { (old new : State) (call : Call) (returned : CallResult) → IsSound old.document →
        CanBeMade call → IsAfterCall old call returned new → IsSound new.document }
    ensures out_of_memory { (old new : State) (call : Call) → IsSound old.document →
        IsAfterOutOfMemory old call new → IsSound new.document }
{
    look_up_leads_back();
}

/// What happens to the atomic ranges over every run of calls that can be made, from every state
/// that a text area has. Each range at the end, also a remembered one, covers the same characters as
/// one of those that were set last, or of those that were there or remembered at the start. It comes
/// from one that was there then, or that an undo or a redo gave back. Only an undo or a redo splits a
/// range. A range is dropped only by a removal that takes it completely, by an undo or a redo that
/// disturbs it, or that gives others back, by new lines, by the call that clears ranges, and by new
/// ranges.
pub fn ranges_follow_each_run()
    ensures { (calls : List Call) (answers : List Answer) (refused : Option ℕ) (old new : State)
        (buffer displayed : Buffer) → IsSound old.document → All CanBeMade calls →
        Run old buffer calls answers refused new displayed →
        RangesOfRun old buffer calls answers new }
{
    ranges_follow_each_call();
    ranges_cover_no_more();
    each_call_stays_sound();
}

/// How the changes of the text lead from the text before each call to the text after it, in every
/// state that a text area has, except over the call that begins or ends the log: those that the call
/// returns, and after them those of the log, follow those of the old log, and the further ones,
/// applied to the old text one after another, give the new text. A call that runs out of memory
/// leaves a log that leads to the text that it leaves.
pub fn changes_follow_each_call()
    ensures made { (old new : State) (call : Call) (returned : CallResult) → ¬ SetsLog call →
        IsSound old.document → IsResultOf old call returned → IsAfterCall old call returned new →
        ChangesFollow old.document (taken_by returned) new.document }
    ensures out_of_memory { (old new : State) (call : Call) → IsSound old.document →
        IsAfterOutOfMemory old call new → ChangesLead old.document new.document }
{
    changes_lead();
}

/// How the changes lead from text to text over every run of calls that can be made, none of which
/// begins or ends the log: those that its calls return, and after them those of the log at the end,
/// follow those of the log at the start. Applied one after another to the text at the start, the
/// further ones give the text at the end.
pub fn changes_follow_each_run()
    ensures { (calls : List Call) (answers : List Answer) (refused : Option ℕ) (old new : State)
        (buffer displayed : Buffer) → IsSound old.document → All CanBeMade calls →
        Run old buffer calls answers refused new displayed →
        ChangesOfRun old calls answers new }
{
    changes_follow_each_call();
    each_call_stays_sound();
}
