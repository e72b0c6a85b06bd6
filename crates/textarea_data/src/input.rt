//! Key inputs, independent of the terminal library.

ghost use Rattle.std.specs.Prelude.{◌≡◌, true};
ghost use Rattle.textarea_data.specs.Input.{input_of_key};

use serde::{Deserialize, Serialize};

/// A key.
#[derive(Clone, Copy, Debug, Default, PartialEq, Eq, Hash, Serialize, Deserialize)]
pub enum Key {
    /// A key that types a character.
    Char(char),
    /// A function key by its number: F1, F2 and so on.
    F(u8),
    /// Backspace.
    Backspace,
    /// Enter or return.
    Enter,
    /// The left arrow.
    Left,
    /// The right arrow.
    Right,
    /// The up arrow.
    Up,
    /// The down arrow.
    Down,
    /// Tab.
    Tab,
    /// Delete.
    Delete,
    /// Home.
    Home,
    /// End.
    End,
    /// Page up.
    PageUp,
    /// Page down.
    PageDown,
    /// Escape.
    Esc,
    /// Copy, which few terminals report.
    Copy,
    /// Cut, which few terminals report.
    Cut,
    /// Paste, which few terminals report.
    Paste,
    /// The mouse's wheel, turned down.
    MouseScrollDown,
    /// The mouse's wheel, turned up.
    MouseScrollUp,
    /// No key: an input that text areas ignore.
    #[default]
    Null,
}

/// A key with the modifiers that are pressed. The default is [`Key::Null`] without any.
#[derive(Clone, Debug, Default, Drop, PartialEq, Eq, Hash, Serialize, Deserialize)]
pub struct Input {
    /// The key.
    pub key: Key,
    /// Whether Control is pressed.
    pub ctrl: bool,
    /// Whether Alt is pressed.
    pub alt: bool,
    /// Whether Shift is pressed.
    pub shift: bool,
}

impl Input {
    /// Returns the input with Control pressed.
    pub fn ctrl(self) -> Input
        ensures { result ≡ record self { ctrl = true } }
    {
        Input { ctrl: true, ..self }
    }

    /// Returns the input with Alt pressed.
    pub fn alt(self) -> Input
        ensures { result ≡ record self { alt = true } }
    {
        Input { alt: true, ..self }
    }

    /// Returns the input with Shift pressed.
    pub fn shift(self) -> Input
        ensures { result ≡ record self { shift = true } }
    {
        Input {
            shift: true,
            ..self
        }
    }
}

/// Converts to the input of this key without modifiers.
impl From<Key> for Input {
    ghost from_gives = { λ key input. input ≡ input_of_key key };

    fn from(key: Key) -> Input {
        Input {
            key,
            ctrl: false,
            alt: false,
            shift: false,
        }
    }
}

/// Converts to the input of the key that types this character, without modifiers.
impl From<char> for Input {
    ghost use Rattle.textarea_data.specs.declared.input.Key.TheVariants.{Char};

    ghost from_gives = { λ character input. input ≡ input_of_key (Char character) };

    fn from(character: char) -> Input {
        Input::from(Key::Char(character))
    }
}
