//! A text with a saved state. Its user can rely on it that `revert` gives exactly the text that was
//! saved, whenever the undo history reaches back to it.
ghost use Rattle.std.specs.Prelude.{◌≡◌, ◌↔◌, IfOk, IsTrue, OnOk, true};
ghost use Rattle.std.specs.Str.{chars};
ghost use Rattle.textarea_text.specs.Text.{characters_of};
ghost use Rattle.textarea_uses.specs.Save.{file_text};
ghost use Rattle.tui_textarea.specs.Guards.{is_editable};
ghost use Rattle.tui_textarea.specs.TextsBefore.{ReachesBack};

use std::alloc::{AllocError, Global};
use tui_textarea::laws::undos_reach_back;
use tui_textarea::{Input, TextArea};

/// A text, and what was saved last.
#[derive(Drop)]
pub struct SavedText {
    area: TextArea<'static>,
    saved: String,
}

impl SavedText {
    /// Opens a text, which counts as saved.
    pub fn new(alloc: Global, text: &str) -> Result<SavedText, AllocError>
        ensures { IfOk result (λ draft. characters_of draft.saved ≡ file_text draft.area) }
    {
        let area = TextArea::from_text(alloc, text)?;
        let saved = area.text()?;
        Ok(SavedText { area, saved })
    }

    /// Takes a key. What was saved stays.
    pub fn take(&mut self, input: Input) -> Result<bool, AllocError>
        ensures { self.new.saved ≡ self.old.saved }
    {
        self.area.input(input)
    }

    /// Returns the text.
    pub fn text(&self) -> Result<String, AllocError>
        ensures { IfOk result (λ text. characters_of text ≡ file_text self.now.area) }
    {
        self.area.text()
    }

    /// Saves the text.
    pub fn save(&mut self) -> Result<(), AllocError>
        ensures saved { OnOk result (characters_of self.new.saved ≡ file_text self.new.area) }
        ensures text { self.new.area ≡ self.old.area }
    {
        self.saved = self.area.text()?;
        Ok(())
    }

    /// Undoes edits until the text is the saved one, and returns whether it is. For that a text that
    /// was read only can be edited again.
    pub fn revert(&mut self) -> Result<bool, AllocError>
        ensures reached { IfOk result (λ reached. IsTrue reached ↔
            ReachesBack self.old.area.document (characters_of self.old.saved)) }
        ensures reverted { IfOk result (λ reached. IsTrue reached →
            file_text self.new.area ≡ characters_of self.old.saved) }
    {
        self.area.set_read_only(false);
        undo_to(&mut self.area, self.saved.as_str())
    }
}

// Undoes edits until the text is the wanted one, and returns whether it is.
fn undo_to(area: &mut TextArea<'_>, wanted: &str) -> Result<bool, AllocError>
    requires { is_editable area.old ≡ true }
    ensures reached { IfOk result (λ reached. IsTrue reached ↔
        ReachesBack area.old.document (chars wanted.now)) }
    ensures reverted { IfOk result (λ reached. IsTrue reached →
        file_text area.new ≡ chars wanted.now) }
{
    'undoing: loop {
        let there = has_text(area, wanted)?;
        undos_reach_back(area);
        if there {
            return Ok(true);
        }
        let undone = area.undo()?;
        if undone {
            continue;
        }
        return Ok(false);
    }
}

// Returns whether the text is the wanted one.
fn has_text(area: &TextArea<'_>, wanted: &str) -> Result<bool, AllocError>
    ensures { IfOk result (λ there. IsTrue there ↔ (file_text area.now ≡ chars wanted.now)) }
{
    let text = area.text()?;
    let written = text.as_str();
    Ok(is_same(written, wanted))
}

// Returns whether two texts are the same.
fn is_same(one: &str, other: &str) -> bool
    ensures { IsTrue result ↔ (one.now ≡ other.now) }
{
    one == other
}
