//! The editor's state, and its step from an event to an effect.

ghost use Rattle.std.specs.Prelude.{◌≡◌, ◌^◌, ◌≤◌, ◌↔◌, ◌∷◌, [], false, true, IfOk, IfSome, IsTrue, None, OnErr, OnOk, length, string_bytes, is_some};
ghost use Rattle.textarea_calls.specs.declared.call.Call.TheVariants.{GoTo};
ghost use Rattle.textarea_editor.specs.ControlCharacters.{IsCountShown};
ghost use Rattle.textarea_editor.specs.Draft.{FailsIn, IsSaved, Makes};
ghost use Rattle.textarea_editor.specs.Editor.{IsNamed, KeepsRest, controls_of, draft_of, end_of, file_name_of, message_of, with_controls, with_draft, with_ends, with_message, wraps_of};
ghost use Rattle.textarea_editor.specs.Effects.{IsWritten, optional_bytes};
ghost use Rattle.textarea_editor.specs.SetUp.{IsNewEditor, IsNewFile, IsOpened, opened};
ghost use Rattle.textarea_editor.specs.Steps.{IsStep};

mod answers;
mod commands;
mod drawing;
mod events;
mod keys;
mod mouse;
mod parts;
mod prompt;
mod recovery;
mod replacing;
mod saving;
mod searching;
mod status;
mod viewing;

use crate::control_characters::count_message;
use crate::controls::Controls;
use crate::draft::Draft;
use crate::editor::parts::{fields, file_draft, opened, replace};
use crate::effect::Effect;
use crate::message::Message;
pub use drawing::DrawnFrame;
use std::alloc::{AllocError, Global};
use std::time::Duration;
use textarea_data::scroll::Scrolling;
use textarea_files::file_text::{LineEnd, LineEnds};
use textarea_terminal::input::Event;
use tui_textarea::TextArea;

// The most bytes of a text whose long lines are wrapped when it is opened.
const WRAPPED_BYTES: usize = 1 << 20;

// A step of the wheel.
const WHEEL_DOWN: Scrolling = Scrolling::Delta { rows: 3, cols: 0 };

const WHEEL_UP: Scrolling = Scrolling::Delta { rows: -3, cols: 0 };

/// An editor of one text.
#[derive(Drop)]
pub struct Editor {
    /// The text.
    draft: Draft,
    /// The text of the prompt, of one line.
    field: TextArea<'static>,
    /// The help.
    help: TextArea<'static>,
    /// The text that was looked for last.
    searched: Option<String>,
    /// The text that replaced others last.
    replacement: Option<String>,
    /// The number of matches that were replaced since the text that replaces them was given.
    replaced: usize,
    name: Option<String>,
    /// The name from before a save under another one, until a save succeeds.
    former_name: Option<Option<String>>,
    line_end: LineEnds,
    controls: Controls,
    message: Message,
    columns: u16,
    rows: u16,
}

impl Editor {
    /// Returns an editor of an empty text without a name, on a screen of this size.
    pub fn new(alloc: Global, columns: u16, rows: u16, is_modal: bool) -> Result<Editor, AllocError>
        ensures { IfOk result (IsNewEditor columns rows is_modal) }
    {
        let draft = opened(alloc, Vec::new(alloc), true)?;
        let (field, help) = match fields(alloc, is_modal) {
            Ok(fields) => fields,
            Err(error) => {
                drop(draft);
                return Err(error);
            }
        };
        Ok(Editor {
            draft,
            field,
            help,
            searched: None,
            replacement: None,
            replaced: 0,
            name: None,
            former_name: None,
            line_end: LineEnds {
                between: LineEnd::LineFeed,
                closes_last: true,
            },
            controls: Controls::new(is_modal),
            message: Message::Nothing,
            columns,
            rows,
        })
    }

    /// Replaces the text by that of a file with this name. The cursor is then at the text's start,
    /// nothing is selected, no edit can be undone, lines have no numbers, and long ones are wrapped
    /// if the text has at most 2^20 bytes. Until it is edited, the text is saved as it was. A name
    /// without a text is that of a new file; the text stays, and its last line gets a line end when
    /// it is saved.
    ///
    /// If memory runs out, the editor is as before.
    pub fn open(&mut self, name: &str, text: Option<String>) -> Result<(), AllocError>
        ensures written { OnOk result (IfSome text (λ text.
            IsWritten (draft_of self.new).area (end_of self.new) (string_bytes text))) }
        ensures opened { OnOk result (IfSome text (λ text.
            IsOpened (draft_of self.new).area (wraps_of self.new))) }
        ensures wraps { OnOk result (IfSome text (λ text.
            IsTrue (wraps_of self.new) ↔ (length (string_bytes text) ≤ 2 ^ 20))) }
        ensures controls { OnOk result (IfSome text (λ text. controls_of self.new
            ≡ record (controls_of self.old) { wraps = wraps_of self.new; numbers = false })) }
        ensures saved { OnOk result (IfSome text (λ text. IsSaved (draft_of self.new))) }
        ensures counted { OnOk result (IfSome text (λ text.
            IsCountShown (draft_of self.new).area Message.Nothing (message_of self.new))) }
        ensures new_file { OnOk result (text ≡ None → IsNewFile self.old self.new) }
        ensures name { OnOk result (IsNamed name.now (file_name_of self.new)) }
        ensures rest { OnOk result (KeepsRest self.old self.new) }
        ensures err { OnErr result (self.new ≡ self.old) }
    {
        let alloc = self.allocator();
        let name = String::from_str(alloc, name)?;
        match text {
            Some(text) => self.take_text(text)?,
            None => self.message = Message::NewFile,
        }
        self.name = Some(name);
        Ok(())
    }

    // Replaces the text by that of a file.
    fn take_text(&mut self, text: String) -> Result<(), AllocError>
        ensures written { OnOk result
            (IsWritten (draft_of self.new).area (end_of self.new) (string_bytes text)) }
        ensures opened { OnOk result (IsOpened (draft_of self.new).area (wraps_of self.new)) }
        ensures wraps { OnOk result
            (IsTrue (wraps_of self.new) ↔ (length (string_bytes text) ≤ 2 ^ 20)) }
        ensures controls { OnOk result (controls_of self.new
            ≡ record (controls_of self.old) { wraps = wraps_of self.new; numbers = false }) }
        ensures saved { OnOk result (IsSaved (draft_of self.new)) }
        ensures counted { OnOk result
            (IsCountShown (draft_of self.new).area Message.Nothing (message_of self.new)) }
        ensures name { OnOk result (file_name_of self.new ≡ file_name_of self.old) }
        ensures rest { OnOk result (KeepsRest self.old self.new) }
        ensures err { OnErr result (self.new ≡ self.old) }
    {
        let wraps = text.len() <= WRAPPED_BYTES;
        let (draft, line_end) = file_draft(self.allocator(), text, wraps)?;
        self.message = count_message(draft.area().lines(), Message::Nothing);
        replace(&mut self.draft, draft);
        self.line_end = line_end;
        self.controls.wraps = wraps;
        self.controls.numbers = false;
        Ok(())
    }

    /// Has the last line of a new file get a line end when the file is saved, as at first, or not.
    /// It is for a file that has no text yet.
    pub fn set_closes_last(&mut self, closes_last: bool)
        ensures { self.new ≡ with_ends self.old
            (record (end_of self.old) { closes_last = closes_last }) }
    {
        self.line_end.closes_last = closes_last;
    }

    /// Has Enter in the text keep the indent of its line, as at first, or not. With modal keys it never
    /// does.
    pub fn set_keeps_indent(&mut self, keeps_indent: bool)
        ensures { self.new ≡ with_controls self.old
            (record (controls_of self.old) { keeps_indent = keeps_indent }) }
    {
        self.controls.keeps_indent = keeps_indent;
    }

    /// Moves the cursor to the position (row, column) of the text, or the nearest one.
    pub fn go_to(&mut self, place: (usize, usize)) -> Result<(), AllocError>
        ensures ok { OnOk result (Makes (draft_of self.old) (GoTo place ∷ []) (draft_of self.new)) }
        ensures err { OnErr result
            (FailsIn (draft_of self.old) (GoTo place ∷ []) (draft_of self.new)) }
        ensures rest { self.new ≡ with_draft self.old (draft_of self.new) }
    {
        self.draft.move_to(place)
    }

    /// Shows a message until the next key.
    pub fn show_message(&mut self, message: Message)
        ensures { self.new ≡ with_message self.old message }
    {
        self.message = message;
    }

    /// Returns the name of the file, if it has one.
    pub fn name(&self) -> Option<&str>
        ensures named { is_some result ≡ is_some (file_name_of self.now) }
        ensures name { IfSome result (λ name. name.now ≡ optional_bytes (file_name_of self.now)) }
    {
        match &self.name {
            Some(name) => Some(name.as_str()),
            None => None,
        }
    }

    /// Returns whether the text may differ from the saved one. A text of at most 2^20 bytes, when it
    /// was opened or saved, is compared with that, if there was memory for a copy; a larger one
    /// counts as changed from the first event on that may edit it until it is saved.
    pub fn is_changed(&self) -> bool
        ensures { result ≡ (draft_of self.now).is_changed }
    {
        self.draft.is_changed()
    }

    /// Takes an event of the terminal, which came at this time since any start.
    ///
    /// If memory runs out, the calls of the event before one of them were made, the status row
    /// shows it, and the program does nothing.
    pub fn step(&mut self, now: Duration, event: &Event) -> Effect
        ensures { IsStep self.old now event.now result self.new }
    {
        match self.try_step(now, event) {
            Ok(effect) => effect,
            Err(_) => {
                self.message = Message::Memory;
                Effect::Nothing
            }
        }
    }

    fn allocator(&self) -> Global {
        self.draft.allocator()
    }
}
