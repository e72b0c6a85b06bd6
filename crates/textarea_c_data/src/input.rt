ghost use Rattle.std.specs.Prelude.{◌≡◌, Some};
ghost use Rattle.textarea_c_data.specs.Inputs.{blank_input, input_read, key_argument, key_number, key_read, plain_input};

use textarea_data::input;
use textarea_data::input::Key;

/// A key with the modifiers that are pressed. The key is one of `TA_KEY_..`; `argument` is the
/// number of the character for `TA_KEY_CHAR`, of the function key for `TA_KEY_F`, and ignored for
/// any other key. With all bytes zero it is no key, which text areas ignore.
#[repr(C)]
#[derive(Clone, Copy, Debug, PartialEq, Eq)]
pub struct CInput {
    pub key: u32,
    pub argument: u32,
    pub ctrl: bool,
    pub alt: bool,
    pub shift: bool,
}

impl CInput {
    /// Returns the input, or `None` if there is no such key.
    pub fn read(self) -> Option<input::Input>
        ensures { result ≡ input_read self }
    {
        Some(input::Input {
            key: read_key(self.key, self.argument)?,
            ctrl: self.ctrl,
            alt: self.alt,
            shift: self.shift,
        })
    }

    /// Returns the struct that is read as this input.
    pub fn of(input: &input::Input) -> CInput
        ensures value { result ≡ plain_input input.now }
        ensures read { input_read result ≡ Some input.now }
    {
        let (key, argument) = numbers_of(input.key);
        CInput {
            key,
            argument,
            ctrl: input.ctrl,
            alt: input.alt,
            shift: input.shift,
        }
    }

    /// Returns no key without modifiers.
    pub fn blank() -> CInput
        ensures { result ≡ blank_input }
    {
        CInput {
            key: 0,
            argument: 0,
            ctrl: false,
            alt: false,
            shift: false,
        }
    }
}

// Returns the key of this number.
fn read_key(key: u32, argument: u32) -> Option<Key>
    ensures { result ≡ key_read key argument }
{
    Some(match key {
        0 => Key::Null,
        1 => Key::Char(char::from_u32(argument)?),
        2 => Key::F(u8::try_from(argument).ok()?),
        3 => Key::Backspace,
        4 => Key::Enter,
        5 => Key::Left,
        6 => Key::Right,
        7 => Key::Up,
        8 => Key::Down,
        9 => Key::Tab,
        10 => Key::Delete,
        11 => Key::Home,
        12 => Key::End,
        13 => Key::PageUp,
        14 => Key::PageDown,
        15 => Key::Esc,
        16 => Key::Copy,
        17 => Key::Cut,
        18 => Key::Paste,
        19 => Key::MouseScrollDown,
        20 => Key::MouseScrollUp,
        _ => return None,
    })
}

// Returns the numbers of the key, and of its character or of the function key.
fn numbers_of(key: Key) -> (u32, u32)
    ensures number { result.0 ≡ key_number key }
    ensures argument { result.1 ≡ key_argument key }
    ensures read { key_read result.0 result.1 ≡ Some key }
{
    match key {
        Key::Null => (0, 0),
        Key::Char(character) => (1, u32::from(character)),
        Key::F(number) => (2, u32::from(number)),
        Key::Backspace => (3, 0),
        Key::Enter => (4, 0),
        Key::Left => (5, 0),
        Key::Right => (6, 0),
        Key::Up => (7, 0),
        Key::Down => (8, 0),
        Key::Tab => (9, 0),
        Key::Delete => (10, 0),
        Key::Home => (11, 0),
        Key::End => (12, 0),
        Key::PageUp => (13, 0),
        Key::PageDown => (14, 0),
        Key::Esc => (15, 0),
        Key::Copy => (16, 0),
        Key::Cut => (17, 0),
        Key::Paste => (18, 0),
        Key::MouseScrollDown => (19, 0),
        Key::MouseScrollUp => (20, 0),
    }
}
