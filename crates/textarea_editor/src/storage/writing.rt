// Writes of the journal.
ghost use Rattle.std.specs.Prelude.{◌≡◌, IfSome, None, is_none};
ghost use Rattle.textarea_editor.specs.Storage.{MakesTextOf, IsBrought, IsJournalTrouble, IsTried, IsWriteDone, KeepsAllButJournal, journal_trouble, needs_write};

use super::Storage;
use crate::editor::Editor;
use crate::message::Message;
use std::io::ErrorKind;
use textarea_disk::{Journal, JournalWrite};
use textarea_files::CarriesOut;

impl Storage {
    // Brings the journal to the editor's text, and returns why that failed, if it did.
    pub(super) fn written(&mut self, rt: &HostRuntime, editor: &Editor) -> Option<Message>
        ensures brought { IsBrought (needs_write self.old editor.now) result
            self.old editor.now self.new }
        ensures rest { KeepsAllButJournal self.old self.new }
    {
        let name = editor.name()?;
        if let Some(journal) = &mut self.journal {
            return write_text(journal, &mut self.journal_file, rt, editor, name);
        }
        if editor.is_changed() {
            return self.begin(rt, editor, name);
        }
        None
    }

    // The same for a text that has no journal yet.
    fn begin(&mut self, rt: &HostRuntime, editor: &Editor, name: &str) -> Option<Message>
        requires { self.old.journal ≡ None }
        ensures tried { IsTried result self.old editor.now self.new }
        ensures rest { KeepsAllButJournal self.old self.new }
    {
        let Ok(bytes) = self.file.bytes(rt, name) else {
            return Some(Message::NoJournal);
        };
        let mut journal = Journal::of_file(bytes);
        match write_text(&mut journal, &mut self.journal_file, rt, editor, name) {
            None => {
                self.journal = Some(journal);
                None
            }
            Some(trouble) => {
                self.journal_file.remove(rt);
                Some(trouble)
            }
        }
    }
}

// Brings a journal to the editor's text, and returns why that failed, if it did.
fn write_text<F: CarriesOut>(
    journal: &mut Journal,
    file: &mut F,
    rt: &HostRuntime,
    editor: &Editor,
    name: &str,
) -> Option<Message>
    ensures made { result ≡ None → MakesTextOf editor.now journal.new }
    ensures carried { IsWriteDone F.writes file.old journal.old result file.new journal.new }
    ensures failed { IfSome result IsJournalTrouble }
{
    let Ok(text) = editor.text() else {
        return Some(Message::NoJournal);
    };
    match journal.write(text.into_bytes()) {
        Ok(Some(write)) => carried(file, rt, name, &write),
        Ok(None) => None,
        Err(_) => Some(Message::NoJournal),
    }
}

// Carries out a write, and returns why that failed, if it did.
fn carried<F: CarriesOut>(
    file: &mut F,
    rt: &HostRuntime,
    name: &str,
    write: &JournalWrite,
) -> Option<Message>
    ensures carried { F.writes file.old write.now (is_none result) file.new }
    ensures failed { IfSome result IsJournalTrouble }
{
    match file.carry_out(rt, name, write) {
        Ok(()) => None,
        Err(error) => Some(journal_trouble(error.kind())),
    }
}

// What is told of a write of a journal that failed.
fn journal_trouble(kind: ErrorKind) -> Message
    ensures { result ≡ journal_trouble kind }
{
    match kind {
        ErrorKind::AlreadyExists => Message::OpenElsewhere,
        _ => Message::NoJournal,
    }
}
