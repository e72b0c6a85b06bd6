//! Laws of runs of events. A run is a list of events, each with its time, its effect, and the
//! editor after it.
ghost use Rattle.std.specs.Prelude.{◌≡◌, ◌⊎◌, false, true, List, Some, Option};
ghost use Rattle.textarea_disk.specs.Plan.{steps_of};
ghost use Rattle.textarea_disk.specs.Save.{AtEachPoint, CanBegin, Save as DiskSave};
ghost use Rattle.textarea_disk.specs.declared.step.SavePlan.{SavePlan};
ghost use Rattle.std.specs.declared.time.Duration.{Duration};
ghost use Rattle.textarea_editor.specs.Draft.{HasCopy, IsSaved, IsSavedFrom, IsUnsaved};
ghost use Rattle.textarea_editor.specs.Editor.{AsksToSave, draft_of, end_of};
ghost use Rattle.textarea_editor.specs.Effects.{IsWritten, text_of_saving};
ghost use Rattle.textarea_editor.specs.Runs.{Act, AreActs, Begins, Folder, LastGiven, IsSaveFor, IsSureOf, LeavesOne, Running, given_after_acts};
ghost use Rattle.textarea_editor.specs.Steps.{AreSteps, IsStep, MakesCallsOf, Moment, NoneFails};
ghost use Rattle.textarea_editor.specs.Turns.{GivenFile, text_of_file};
ghost use Rattle.textarea_editor.specs.declared.editor.Editor.{Editor};
ghost use Rattle.textarea_editor.specs.declared.effect.Effect.TheVariants.{Quit, Save};
ghost use Rattle.textarea_terminal.specs.declared.input.event.Event.{Event};
ghost use Rattle.textarea_editor.specs.declared.effect.SaveRequest.{SaveRequest};

use textarea_disk::laws::{beside_is_old_or_new, in_place_has_whole_text, saves_are_lasting};

/// As long as memory suffices, the text area after any run is that of the calls that the events
/// make.
pub fn run_makes_the_calls_of_its_events()
    ensures { (old new : Editor) (moments : List Moment) → AreSteps old moments new
        → NoneFails moments → MakesCallsOf old moments new }
{}

/// After any run since the text was opened or saved: if it counts as unchanged, it is that text.
pub fn unchanged_text_is_the_saved_one()
    ensures { (saved now : Editor) (moments : List Moment) → AreSteps saved moments now
        → IsSaved (draft_of saved) → (draft_of now).is_changed ≡ false
        → (draft_of now).area.document.text ≡ (draft_of saved).area.document.text }
{}

/// After any run since the text was opened or saved, and a copy of it was kept: if it is that text,
/// it counts as unchanged. So undo and redo remove the mark of a changed text where they lead back.
pub fn saved_text_counts_as_unchanged()
    ensures { (saved now : Editor) (moments : List Moment) → AreSteps saved moments now
        → IsSaved (draft_of saved) → HasCopy (draft_of saved)
        → (draft_of now).area.document.text ≡ (draft_of saved).area.document.text
        → (draft_of now).is_changed ≡ false }
{}

/// After any run since an unsaved text was recovered: it still counts as changed, since it is not
/// known which text was saved. A save ends that.
pub fn unsaved_text_counts_as_changed()
    ensures { (recovered now : Editor) (moments : List Moment) → AreSteps recovered moments now
        → IsUnsaved (draft_of recovered) → (draft_of now).is_changed ≡ true }
{}

/// After any run since the text was opened or saved: an event ends the program only after the
/// question whether to save, or if it leaves the saved text.
pub fn quits_without_a_question_only_with_the_saved_text()
    ensures { (saved old new : Editor) (moments : List Moment) (now : Duration) (event : Event)
        → AreSteps saved moments old → IsSaved (draft_of saved)
        → IsStep old now event Quit new
        → AsksToSave old
        ⊎ ((draft_of new).area.document.text ≡ (draft_of saved).area.document.text) }
{}

/// The text that counts as the saved one after a save is that of the effect that asked for the save,
/// if no event came in between.
pub fn saved_text_is_that_of_the_effect()
    ensures { (old asked saved : Editor) (now : Duration) (event : Event) (saving : SaveRequest)
        → IsStep old now event (Save saving) asked
        → IsSavedFrom (draft_of asked) (draft_of saved) → end_of saved ≡ end_of asked
        → IsWritten (draft_of saved).area (end_of saved) (text_of_saving saving) }
{}

/// After any run of the program, whatever bytes and pauses the terminal has sent, whatever was shown,
/// and however saves ended: a text that counts as unchanged is the one that the disk was given by
/// the last save that succeeded, or that it had at first. If a sync made sure of that save, and none
/// failed since, a crash leaves that text under the file's name; and at any point of the next save
/// of the file that text, the new one, or the new one as a whole copy.
pub fn runs_leave_the_last_saved_text()
    ensures unchanged { (folder : Folder) (first last : Running) (acts : List Act) (given : LastGiven)
        (file : GivenFile) → Begins folder given first → AreActs folder first acts last
        → (given_after_acts given acts).file ≡ Some file
        → (draft_of last.editor).is_changed ≡ false
        → IsWritten (draft_of last.editor).area (end_of last.editor) (text_of_file file) }
    ensures sure { (folder : Folder) (first last : Running) (acts : List Act) (given : LastGiven)
        (file : GivenFile) → Begins folder given first → AreActs folder first acts last
        → given_after_acts given acts ≡ record { file = Some file; is_sure = true }
        → IsSureOf folder last.disk file }
    ensures crash { (folder : Folder) (first last : Running) (acts : List Act) (given : LastGiven)
        (file : GivenFile) (saving : SaveRequest) (save : DiskSave) (plan : SavePlan)
        → Begins folder given first → AreActs folder first acts last
        → given_after_acts given acts ≡ record { file = Some file; is_sure = true }
        → folder.is_file save.file ≡ true → folder.target file.name ≡ save.file
        → IsSaveFor folder saving save → CanBegin plan save last.disk
        → AtEachPoint (LeavesOne save (text_of_file file)) save (steps_of plan) last.disk }
{
    saves_are_lasting();
    beside_is_old_or_new();
    in_place_has_whole_text();
}
