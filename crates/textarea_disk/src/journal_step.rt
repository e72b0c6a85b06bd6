//! The steps of writes of a journal and of its removal.

ghost use Rattle.std.specs.Prelude.{◌≡◌, ◌≢◌, ◌<◌, ◌++◌, [], List, Some, true, false, ℕ};
ghost use Rattle.std.specs.List.{AllByRecursion};
ghost use Rattle.textarea_disk.specs.Disk.{Disk, Leaves};
ghost use Rattle.textarea_disk.specs.Journal.{IsSized, journal_of};
ghost use Rattle.textarea_disk.specs.declared.journal_step.JournalStep.{JournalStep};
ghost use Rattle.textarea_disk.specs.JournalSteps.{AtEachStep, HasJournal, HasNoJournal, IsGoneOrWhole, LeavesFirst, Writing, after_writing, removing_steps, after_journal_step, writing_steps};

/// One step of a write of a journal, or of its removal. A program carries out the steps of a list
/// in order, up to the first that fails.
#[derive(Clone, Copy, Debug, PartialEq, Eq)]
pub enum JournalStep {
    /// Makes the journal, empty. It fails if there is a file of this name.
    Create,
    /// Adds bytes at the journal's end.
    Append,
    /// Brings the journal's bytes to the disk.
    Sync,
    /// Brings to the disk what the folder has under the journal's name.
    SyncFolder,
    /// Removes the journal.
    Remove,
}

impl JournalStep {
    /// Returns the steps of a write of records, in order: of the first one to a journal that there
    /// isn't yet, or of a later one.
    pub fn writing(is_first: bool) -> &'static [JournalStep]
        ensures { result.now ≡ writing_steps is_first }
    {
        if is_first {
            &[
                JournalStep::Create,
                JournalStep::Append,
                JournalStep::Sync,
                JournalStep::SyncFolder,
            ]
        } else {
            &[JournalStep::Append, JournalStep::Sync]
        }
    }

    /// Returns the steps of the removal of a journal, in order.
    pub fn removing() -> &'static [JournalStep]
        ensures { result.now ≡ removing_steps }
    {
        &[JournalStep::Remove, JournalStep::SyncFolder]
    }
}

/// What a crash at any point of a write leaves of a journal is read as the records that were there,
/// and the first few of those that are written. After all steps it is read as all of them.
pub fn journals_are_lasting()
    ensures first { (writing : Writing) (disk : Disk) (written : List (List ℕ))
        → AllByRecursion IsSized written → writing.bytes ≡ journal_of written
        → HasNoJournal disk writing.name
        → AtEachStep (LeavesFirst writing.name [] written) writing (writing_steps true) disk
        × HasJournal (after_writing writing (writing_steps true) disk) writing.name written }
    ensures later { (writing : Writing) (disk : Disk) (stored written : List (List ℕ))
        → AllByRecursion IsSized written → writing.bytes ≡ journal_of written
        → HasJournal disk writing.name stored
        → AtEachStep (LeavesFirst writing.name stored written) writing (writing_steps false) disk
        × HasJournal (after_writing writing (writing_steps false) disk) writing.name
        (stored ++ written) }
{}

/// A crash at any point of a journal's removal leaves all its records or no journal, and after all
/// steps there is none.
pub fn journals_are_removed()
    ensures { (writing : Writing) (disk : Disk) (stored : List (List ℕ))
        → HasJournal disk writing.name stored
        → AtEachStep (λ d. Leaves d writing.name (IsGoneOrWhole stored)) writing removing_steps disk
        × HasNoJournal (after_writing writing removing_steps disk) writing.name }
{}

/// The steps of a journal change nothing under another name, and no other file.
pub fn journals_change_no_other_file()
    ensures names { (writing : Writing) (step : JournalStep) (disk : Disk) (name : List ℕ)
        → name ≢ writing.name
        → (after_journal_step writing step disk).names name ≡ disk.names name }
    ensures files { (writing : Writing) (step : JournalStep) (disk : Disk) (n : ℕ)
        → n < disk.count → (disk.names writing.name).now ≢ Some n
        → (after_journal_step writing step disk).files n ≡ disk.files n }
{}
