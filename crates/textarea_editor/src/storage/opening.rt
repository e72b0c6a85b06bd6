// The opening of a file, and of the journal that it may have.
ghost use Rattle.std.specs.Prelude.{◌≡◌, ◌||◌, OnErr, OnOk, not};
ghost use Rattle.textarea_editor.specs.Effects.{optional_bytes};
ghost use Rattle.textarea_editor.specs.Openings.{IsAskedAbout, IsFileOpened, IsOpenedAt, IsOpenedWith, IsTextOf, IsViewing, IsWeighed, has_changes, has_text, told_at_opening, with_told};

use super::Storage;
use crate::editor::Editor;
use crate::message::{Message, Trouble};
use std::alloc::AllocError;
use textarea_disk::{Recovery, recovered};
use textarea_files::FoundJournal;

impl Storage {
    // Shows the bytes of the file of this name. The text has no name, so nothing is locked, and there
    // is no journal.
    pub(super) fn view(
        &self,
        rt: &HostRuntime,
        editor: &mut Editor,
        name: &str,
    ) -> Result<Option<Trouble>, AllocError>
        ensures { IsViewing editor.old result editor.new }
    {
        match self.file.viewed(rt, name) {
            Ok(text) => {
                editor.view(text)?;
                Ok(None)
            }
            Err(trouble) => Ok(Some(trouble)),
        }
    }

    // Opens a text, and weighs what there is of its journal.
    pub(super) fn open_text(
        &mut self,
        rt: &HostRuntime,
        editor: &mut Editor,
        name: &str,
        text: Option<String>,
        found: FoundJournal,
    ) -> Result<(), AllocError>
        ensures ok { OnOk result
            (IsOpenedAt found name.now text self.old editor.old self.new editor.new) }
        ensures err { OnErr result (self.new ≡ self.old) }
        ensures same { OnErr result (editor.new ≡ editor.old) }
    {
        match found {
            FoundJournal::Nothing => open_in(editor, name, text),
            FoundJournal::Busy => {
                open_in(editor, name, text)?;
                self.is_off = true;
                Ok(())
            }
            FoundJournal::Bytes(journal) => self.open_beside(rt, editor, name, text, journal),
        }
    }

    // Opens a text beside which there is a journal with these bytes.
    fn open_beside(
        &mut self,
        rt: &HostRuntime,
        editor: &mut Editor,
        name: &str,
        text: Option<String>,
        journal: Vec<u8>,
    ) -> Result<(), AllocError>
        ensures ok { OnOk result
            (IsOpenedWith journal.items name.now text self.old editor.old self.new editor.new) }
        ensures err { OnErr result (self.new ≡ self.old) }
        ensures same { OnErr result (editor.new ≡ editor.old) }
    {
        let bytes = bytes_of(&text);
        let found = recovered(rt.alloc(), bytes, journal.as_slice())?;
        let has_changes = has_changes(&found, bytes);
        open_in(editor, name, text)?;
        self.weigh(rt, editor, found, has_changes);
        Ok(())
    }

    // Keeps a journal with changes, and removes one without.
    fn weigh(&mut self, rt: &HostRuntime, editor: &mut Editor, found: Recovery, has_changes: bool)
        ensures { IsWeighed has_changes found self.old editor.old self.new editor.new }
    {
        if has_changes {
            self.offer(editor, found);
        } else {
            self.journal_file.remove(rt);
        }
    }

    // Has the editor ask what to do about a journal with changes.
    fn offer(&mut self, editor: &mut Editor, found: Recovery)
        ensures { IsAskedAbout found self.old editor.old self.new editor.new }
    {
        self.size = found.size;
        self.is_kept = true;
        self.offered = text_of(found);
        editor.ask_about_journal(self.offered.is_some());
    }
}

// Has the editor open a text.
fn open_in(editor: &mut Editor, name: &str, text: Option<String>) -> Result<(), AllocError>
    ensures ok { OnOk result (IsFileOpened name.now text editor.old editor.new) }
    ensures err { OnErr result (editor.new ≡ editor.old) }
{
    editor.open(name, text)
}

// The bytes of a text, none if there is none.
fn bytes_of(text: &Option<String>) -> &[u8]
    ensures { result.now ≡ optional_bytes text.now }
{
    match text {
        Some(text) => text.as_bytes(),
        None => b"",
    }
}

// Whether a journal of which something can be read makes another text of its file's bytes, or is of
// another file.
fn has_changes(found: &Recovery, bytes: &[u8]) -> bool
    ensures { result ≡ has_changes bytes.now found.now }
{
    found.size > 0 && !(found.is_of_file && found.text.as_slice() == bytes)
}

// What is told of a file that is opened, if anything is: that another editor has its journal or the
// file, or why it can't be written.
pub(super) fn told_at_opening(
    is_off: bool,
    is_first: bool,
    refusal: Option<Trouble>,
) -> Option<Message>
    ensures { result ≡ told_at_opening (is_off || not is_first) refusal }
{
    if is_off || !is_first {
        return Some(Message::OpenElsewhere);
    }
    match refusal {
        Some(trouble) => Some(Message::Unwritable(trouble)),
        None => None,
    }
}

// Has the editor show a message, if there is one.
pub(super) fn tell(editor: &mut Editor, message: Option<Message>)
    ensures { editor.new ≡ with_told message editor.old }
{
    if let Some(message) = message {
        editor.show_message(message);
    }
}

// Returns the text that a journal makes of its file, if it is of the file, and that is a text.
fn text_of(found: Recovery) -> Option<String>
    ensures { IsTextOf (has_text found) found.text.items result }
{
    if !found.is_of_file {
        return None;
    }
    match String::from_utf8(found.text) {
        Ok(text) => Some(text),
        Err(_) => None,
    }
}
