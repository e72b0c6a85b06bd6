//! Reversed texts, and texts of one character.
ghost use Rattle.std.specs.Prelude.{◌≡◌, reverse, string_bytes, IfOk};
ghost use Rattle.textarea_history.specs.Prelude.{chars, characters, character_of};

use std::alloc::{AllocError, Global};

/// Returns the text with its characters in reverse order.
pub fn reverse_text(alloc: Global, text: &str) -> Result<String, AllocError>
    ensures { IfOk result (λ s. chars (string_bytes s) ≡ reverse (chars text.now)) }
{
    let mut result_text = String::new(alloc);
    for c in text.chars().rev() {
        result_text.push(c)?;
    }
    Ok(result_text)
}

/// Returns the character of a text that has just one.
pub fn only_character(text: &str) -> Option<char>
    ensures { result ≡ character_of (characters (chars text.now)) }
{
    let mut rest = text.chars();
    let first = rest.next()?;
    rest.next().is_none().then_some(first)
}
