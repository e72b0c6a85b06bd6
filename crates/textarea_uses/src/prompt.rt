//! A prompt. Its user can rely on it that what Enter sends is exactly what was typed since the last
//! Enter.
ghost use Rattle.std.specs.Prelude.{◌≡◌, ◌++◌, [], IfOk, List, None, OnErr, OnOk, Some, ℕ};
ghost use Rattle.std.specs.Option.{option_map, option_to_list};
ghost use Rattle.textarea_text.specs.Text.{characters_of, lines_of};
ghost use Rattle.textarea_uses.specs.Prompt.{sent_after, sent_by, typed_after};
ghost use Rattle.tui_textarea.specs.Prelude.{IsTypedLine};

use std::alloc::{AllocError, Global};
use tui_textarea::laws::typed_line_stays;
use tui_textarea::{Key, TextArea};

/// A prompt for one line.
#[derive(Drop)]
pub struct LinePrompt {
    area: TextArea<'static>,
}

impl LinePrompt {
    /// Returns a prompt in which nothing is typed yet.
    pub fn new(alloc: Global) -> Result<LinePrompt, AllocError>
        ensures { IfOk result (λ prompt. IsTypedLine prompt.area None []) }
    {
        let area = TextArea::try_default(alloc)?;
        Ok(LinePrompt { area })
    }

    /// Takes a key. A character is typed, Backspace removes the last one, and Enter sends the text.
    pub fn take(&mut self, key: Key) -> Result<Option<String>, AllocError>
        ensures ok { (typed : List ℕ) → IsTypedLine self.old.area None typed →
            IfOk result (λ text. (option_map characters_of text ≡ sent_by key typed)
            × IsTypedLine self.new.area None (typed_after key typed)) }
        ensures err { (typed : List ℕ) → IsTypedLine self.old.area None typed →
            OnErr result (IsTypedLine self.new.area None typed) }
    {
        typed_line_stays();
        match key {
            Key::Char(character) if character != '\n' && character != '\r' => {
                self.area.insert_char(character)?;
                Ok(None)
            }
            Key::Backspace => {
                self.area.delete_char()?;
                Ok(None)
            }
            Key::Enter => self.send(),
            _ => Ok(None),
        }
    }

    // Returns the text, and empties the prompt.
    fn send(&mut self) -> Result<Option<String>, AllocError>
        ensures ok { (typed : List ℕ) → IsTypedLine self.old.area None typed →
            IfOk result (λ text. (option_map characters_of text ≡ Some typed)
            × IsTypedLine self.new.area None []) }
        ensures err { OnErr result (self.new ≡ self.old) }
    {
        typed_line_stays();
        let text = self.area.text()?;
        self.area.clear()?;
        Ok(Some(text))
    }
}

/// Takes the keys, and adds what they send to the texts, one for each Enter.
pub fn send_all(
    prompt: &mut LinePrompt,
    keys: &[Key],
    texts: &mut Vec<String>,
) -> Result<(), AllocError>
    ensures { IsTypedLine prompt.old.area None [] → OnOk result
        (lines_of texts.new.items ≡ sent_after keys.now [] (lines_of texts.old.items)) }
{
    for key in keys {
        let sent = prompt.take(*key)?;
        push_some(texts, sent)?;
    }
    Ok(())
}

// Adds the text, if there is one.
fn push_some(texts: &mut Vec<String>, text: Option<String>) -> Result<(), AllocError>
    ensures { OnOk result (lines_of texts.new.items
        ≡ lines_of texts.old.items ++ option_to_list (option_map characters_of text)) }
{
    match text {
        Some(text) => {
            texts.push(text)?;
            Ok(())
        }
        None => Ok(()),
    }
}
