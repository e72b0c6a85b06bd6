//! The defaults, each stated as the contract of a function that only returns it.
ghost use Rattle.std.specs.Prelude.{◌≡◌, false, Ok};

use crate::input::{Input, Key};
use std::alloc::AllocError;

/// The default key is [`Key::Null`].
pub fn default_key() -> Key
    ensures { result ≡ Key.Null }
{
    Key::default()
}

/// The default input is that of no key, without modifiers.
pub fn default_input() -> Input
    ensures { result ≡ record { key = Key.Null; ctrl = false; alt = false; shift = false } }
{
    Input::default()
}

/// A clone of an input is equal to it, and takes no memory.
pub fn cloned_input(input: &Input) -> Result<Input, AllocError>
    ensures { result ≡ Ok input.now }
{
    input.clone()
}
