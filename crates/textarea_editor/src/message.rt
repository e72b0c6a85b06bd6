//! Messages of the status row.

ghost use Rattle.std.specs.Prelude.{◌≡◌, ◌≤◌, ℕ, IfOk, length, string_bytes};
ghost use Rattle.textarea_editor.specs.Messages.{message_start, message_words, not_saved_words};
ghost use Rattle.textarea_files.specs.declared.trouble.Trouble.{Trouble};

use std::alloc::{AllocError, Global};
pub use textarea_files::Trouble;

/// A message of the status row.
#[derive(Clone, Copy, Debug, PartialEq, Eq)]
pub enum Message {
    /// No message.
    Nothing,
    /// The file doesn't exist yet.
    NewFile,
    /// The file isn't UTF-8: it is shown as [`viewed`](crate::viewed::viewed) gives it, and can't be
    /// edited.
    NotUtf8,
    /// The text can't be edited.
    ReadOnly,
    /// The opened text has this number of control characters other than tabs.
    ControlCharacters(usize),
    /// The file was saved.
    Saved,
    /// The file was saved after another program deleted it.
    SavedAnew,
    /// The file was saved, but the disk failed to make sure of its name.
    Unsynced,
    /// Nothing, but that the question whether to overwrite is for a file that was not opened.
    Exists,
    /// The opened file can't be written, for this reason.
    Unwritable(Trouble),
    /// Another editor has the file open.
    OpenElsewhere,
    /// No journal can be written, so that unsaved changes are lost if the program is killed.
    NoJournal,
    /// The file was not saved. The text is as it was.
    NotSaved(Trouble),
    /// The searched text has no match.
    NoMatch,
    /// The search went on from the text's start to the match that it found.
    FromStart,
    /// The search back went on from the text's end to the match that it found.
    FromEnd,
    /// The prompt's text is to be a pattern, and is none.
    BrokenPattern,
    /// This number of matches was replaced.
    Replaced(usize),
    /// The prompt's text is no line number.
    NoLine,
    /// Out of memory. What was asked for was not done, or not all of it.
    Memory,
}

impl Message {
    /// Returns the message, but for the number or the reason that follows it, if one does.
    pub fn text(self) -> &'static str
        ensures { result.now ≡ message_start self }
    {
        match self {
            Message::Nothing | Message::Exists => "",
            Message::NewFile => "new file",
            Message::NotUtf8 => "not UTF-8: read-only, other bytes are shown as \\xE9",
            Message::ReadOnly => "read-only",
            Message::ControlCharacters(_) => "control characters: ",
            Message::Saved => "saved",
            Message::SavedAnew => "it was deleted; saved anew",
            Message::Unsynced => "saved, but the disk failed to make sure of it",
            Message::Unwritable(_) => "it can't be written: ",
            Message::OpenElsewhere => "another editor has it open",
            Message::NoJournal => "no journal can be written",
            Message::NotSaved(_) => "not saved: ",
            Message::NoMatch => "no match",
            Message::FromStart => "went on from the start",
            Message::FromEnd => "went on from the end",
            Message::BrokenPattern => "broken pattern",
            Message::Replaced(_) => "replaced: ",
            Message::NoLine => "not a line number",
            Message::Memory => "out of memory",
        }
    }
}

/// Returns a message. That of a failed save has the most words that this number of characters has
/// room for: whole, then the reason alone, and then the reason in few words.
pub fn message_text(alloc: Global, message: Message, room: usize) -> Result<String, AllocError>
    ensures { IfOk result (λ text. string_bytes text ≡ message_words message room) }
{
    match message {
        Message::ControlCharacters(count) => { format!(in alloc; "control characters: {count}") }
        Message::Replaced(count) => format!(in alloc; "replaced: {count}"),
        Message::Unwritable(trouble) => {
            let reason = trouble.text();
            format!(in alloc; "it can't be written: {reason}")
        }
        Message::NotSaved(trouble) => not_saved_text(alloc, trouble, room),
        _ => String::from_str(alloc, message.text()),
    }
}

// Returns that a save failed, and why.
fn not_saved_text(alloc: Global, trouble: Trouble, room: usize) -> Result<String, AllocError>
    ensures { IfOk result (λ text. string_bytes text ≡ not_saved_words trouble room) }
{
    let reason = trouble.text();
    let whole = format!(in alloc; "not saved: {reason}")?;
    if whole.len() <= room {
        return Ok(whole);
    }
    if reason.len() <= room {
        return String::from_str(alloc, reason);
    }
    String::from_str(alloc, trouble.short_text())
}

/// Where 18 columns or more are left for it, it is said in them why a save failed.
pub fn reasons_fit_into_18_columns()
    ensures { (failed : Trouble) (room : ℕ) → 18 ≤ room
        → length (not_saved_words failed room) ≤ room }
{}
