//! Laws of saves, each the contract of a function that does nothing. They hold for each disk.

ghost use Rattle.std.specs.Prelude.{◌≡◌, ◌≢◌, ◌⊎◌, ◌<◌, List, ℕ, Some};
ghost use Rattle.textarea_disk.specs.Disk.{Disk, seen};
ghost use Rattle.textarea_disk.specs.Plan.{steps_of};
ghost use Rattle.textarea_disk.specs.Save.{AtEachFailure, AtEachPoint, CanBegin, HasBytes, IsWhole, LeavesOldOrNew, LeavesOnly, LeavesWholeText, Save, after, after_step, saved};
ghost use Rattle.textarea_disk.specs.declared.step.DiskStep.{DiskStep};
ghost use Rattle.textarea_disk.specs.declared.step.SavePlan.{SavePlan};
ghost use Rattle.textarea_disk.specs.declared.step.SavePlan.TheVariants.{Beside, InPlace};

/// After all steps of a save the name has the new text and mode bits, also after a crash.
pub fn saves_are_lasting()
    ensures { (plan : SavePlan) (save : Save) (disk : Disk) → CanBegin plan save disk
        → LeavesOnly (after save (steps_of plan) disk) save.file (Some (saved save)) }
{}

/// A crash at any point of a save beside leaves what a crash could leave before it, so the whole old
/// file if that was synced, or none if there was none; or the whole new one.
pub fn beside_is_old_or_new()
    ensures { (save : Save) (disk : Disk) → CanBegin Beside save disk
        → AtEachPoint (LeavesOldOrNew save disk) save (steps_of Beside) disk }
{}

/// A crash at any point of a save in place leaves what a crash could leave before it, or the whole new
/// file, or else the copy with the whole new text under its name.
pub fn in_place_has_whole_text()
    ensures { (save : Save) (disk : Disk) → CanBegin InPlace save disk
        → AtEachPoint (LeavesWholeText save disk) save (steps_of InPlace) disk }
{}

/// If any step of a save beside fails, the file is whole, as it was or as it is to be, and there
/// is no copy. The same holds in place, except where the copy has the whole new text.
pub fn failures_lose_nothing()
    ensures beside { (save : Save) (disk : Disk) (bytes : List ℕ) → CanBegin Beside save disk
        → AtEachFailure (IsWhole save disk) save bytes (steps_of Beside) disk }
    ensures in_place { (save : Save) (disk : Disk) (bytes : List ℕ) → CanBegin InPlace save disk
        → AtEachFailure
        (λ d. IsWhole save disk d ⊎ HasBytes save.text (seen d save.copy))
        save bytes (steps_of InPlace) disk }
{}

/// A step changes nothing under a name other than those of the file and the copy; and no step of a
/// save beside changes a file that was there, so that its other names keep it.
pub fn others_stay()
    ensures names { (save : Save) (step : DiskStep) (disk : Disk) (name : List ℕ)
        → name ≢ save.file → name ≢ save.copy
        → (after_step save step disk).names name ≡ disk.names name }
    ensures files { (save : Save) (disk : Disk) (n : ℕ)
        → CanBegin Beside save disk → n < disk.count
        → (after save (steps_of Beside) disk).files n ≡ disk.files n }
{}
