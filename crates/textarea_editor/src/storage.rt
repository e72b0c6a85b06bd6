//! What is kept of a text on disk: its file, and the journal of its unsaved changes.

ghost use Rattle.std.specs.Duration.{as_nanos};
ghost use Rattle.std.specs.Option.{IsSomeAnd};
ghost use Rattle.std.specs.Prelude.{◌≡◌, true};
ghost use Rattle.textarea_editor.specs.Openings.{IsOpening};
ghost use Rattle.textarea_editor.specs.Storage.{IsNoted, IsRecovery, IsRestoration, IsSaveDone, IsWrite, MakesTextOf, ended, is_write_due, is_writing, journal_given_up, needs_write};
ghost use Rattle.textarea_editor.specs.declared.editor.Editor.{Editor};
ghost use Rattle.textarea_editor.specs.declared.storage.Storage.{Storage};

mod opening;
mod writing;

use crate::editor::Editor;
use crate::effect::{SaveEnd, SaveRequest};
use crate::message::{Message, Trouble};
use opening::{tell, told_at_opening};
use std::alloc::AllocError;
use std::fs::File;
use std::io::ErrorKind;
use std::time::Duration;
use textarea_data::input::Input;
use textarea_disk::{EventTimes, Journal};
use textarea_files::{DiskFile, JournalFile, open_locked};
use textarea_terminal::input::Event;

/// The file of a text, and its journal.
#[derive(Default, Drop)]
pub struct Storage {
    file: DiskFile,
    /// The open file, locked.
    locked: Option<File>,
    /// The times of the events since the last record.
    times: EventTimes,
    /// What the journal has, once a record was written.
    journal: Option<Journal>,
    journal_file: JournalFile,
    /// The text of a journal that was found, until it is known whether to go on with it.
    offered: Option<String>,
    /// The number of the bytes of its journal that could be read.
    size: u64,
    /// No record is written until the text is saved.
    is_off: bool,
    /// A journal that was found stays, and none is written.
    is_kept: bool,
    /// What is to be told in the status row once no other message is there.
    untold: Option<Message>,
}

impl Storage {
    /// Opens the file of this name. If there is a journal of it with other text, the editor asks
    /// whether to go on with that, or to discard one of another version. Another editor of the file
    /// is told in the status row, and else why the file can't be written, if it can't. A file that
    /// isn't UTF-8 is shown, as [`Editor::view`] does. Returns why the file can't be read, if it can't.
    pub fn open(
        &mut self,
        rt: &HostRuntime,
        editor: &mut Editor,
        name: &str,
    ) -> Result<Option<Trouble>, AllocError>
        ensures { IsOpening self.old editor.old name.now result self.new editor.new }
    {
        let text = match self.file.read(rt, name) {
            Ok(text) => text,
            Err(Trouble::NotText) => return self.view(rt, editor, name),
            Err(trouble) => return Ok(Some(trouble)),
        };
        let is_first = self.lock(rt, name);
        let found = self.journal_file.find(rt, name);
        self.open_text(rt, editor, name, text, found)?;
        let refusal = self.file.refusal(rt, name);
        tell(editor, told_at_opening(self.is_off, is_first, refusal));
        Ok(None)
    }

    /// Has the editor go on with the text of a journal, if it asks whether to, as if the reply were
    /// yes.
    pub fn restore(&mut self, editor: &mut Editor) -> Result<(), AllocError>
        ensures { IsRestoration self.old editor.old result self.new editor.new }
    {
        if self.offered.is_none() {
            return Ok(());
        }
        let _ = editor.step(Duration::ZERO, &Event::Input(Input::from('y')));
        self.recover(editor)
    }

    /// Has the editor go on with the text that was offered. Its changes count as unsaved, and its
    /// journal goes on after the records that could be read.
    ///
    /// If memory runs out, the editor is as before, and the journal stays.
    pub fn recover(&mut self, editor: &mut Editor) -> Result<(), AllocError>
        ensures { IsRecovery self.old editor.old result self.new editor.new }
    {
        let Some(text) = self.offered.take() else {
            return Ok(());
        };
        let written = text.clone()?;
        editor.recover(text)?;
        if self.journal_file.cut(self.size).is_ok() {
            self.journal = Some(Journal::restored(written.into_bytes()));
            self.is_kept = false;
        } else {
            editor.show_message(Message::NoJournal);
        }
        Ok(())
    }

    /// Notes an event at this time, after which the editor's text may be another one.
    pub fn note(&mut self, rt: &HostRuntime, editor: &Editor, time: Duration)
        ensures { IsNoted self.old editor.now (as_nanos time) self.new }
    {
        if editor.is_changed() {
            self.file.make_hash(rt, editor.name().unwrap_or(""));
        }
        if editor.is_changed() || self.journal.is_some() {
            self.times.note(time);
        }
    }

    /// Returns whether the journal is to be written.
    pub fn is_due(&self, time: Duration) -> bool
        ensures { result ≡ is_write_due self.now (as_nanos time) }
    {
        self.times.is_due(time)
    }

    /// Brings the journal to the editor's text, if that may have changed and has a name. After a
    /// failure, which is shown, the records that were written stay, and no others are, until the
    /// text is saved.
    pub fn write(&mut self, rt: &HostRuntime, editor: &mut Editor)
        ensures { IsWrite self.old editor.old self.new editor.new }
    {
        self.times.clear();
        if !self.is_off && !self.is_kept {
            self.untold = self.written(rt, editor);
            self.is_off = self.untold.is_some();
        }
        if let Some(message) = self.untold {
            if editor.add_message(message) {
                self.untold = None;
            }
        }
    }

    /// Removes the journal: its changes are given up.
    pub fn discard(&mut self, rt: &HostRuntime)
        ensures { self.new ≡ journal_given_up self.old }
    {
        self.journal_file.remove(rt);
        self.offered = None;
        self.journal = None;
        self.times.clear();
        self.is_off = false;
        self.is_kept = false;
        self.untold = None;
    }

    /// Removes the journal that was written, if there is one, at the end of the program: the text is
    /// saved or given up.
    pub fn end(&mut self, rt: &HostRuntime)
        ensures { self.new ≡ ended self.old }
    {
        if !self.is_kept {
            self.discard(rt);
        }
    }

    /// Carries out a save, as [`DiskFile::save`] does, and then removes the journal.
    pub fn save(&mut self, rt: &HostRuntime, saving: &SaveRequest) -> SaveEnd
        ensures { IsSaveDone self.old saving.now result self.new }
    {
        let name = saving.name();
        let end = self.file.save(rt, name, saving.text(), saving.overwrites());
        if end.is_saved() {
            self.end(rt);
            self.lock(rt, name);
        }
        end
    }

    // Locks the file of this name, if there is one, and returns false if another editor has it.
    fn lock(&mut self, rt: &HostRuntime, name: &str) -> bool
        ensures { self.new ≡ record self.old { locked = self.new.locked } }
    {
        self.locked = None;
        match open_locked(rt, name) {
            Ok(file) => {
                self.locked = file;
                true
            }
            Err(error) => error.kind() != ErrorKind::ResourceBusy,
        }
    }
}

/// After a write that others may follow, the journal has the editor's text, if that has a name, and
/// was changed or had a journal.
pub fn journal_has_the_text()
    ensures { (old new : Storage) (editor shown : Editor) → IsWrite old editor new shown
        → needs_write old editor ≡ true → is_writing new ≡ true
        → IsSomeAnd new.journal (MakesTextOf editor) }
{}
