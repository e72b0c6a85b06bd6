//! Names that are shortened in their middle.
ghost use Rattle.std.specs.Prelude.{◌≡◌, ◌∷◌, ◌++◌, IfOk, OnOk, length};
ghost use Rattle.std.specs.Str.{chars};
ghost use Rattle.textarea_editor.specs.Shortened.{fitted_name, shortened, text_columns};
ghost use Rattle.textarea_text.specs.Text.{characters_of};

use std::alloc::{AllocError, Global};
use textarea_wrap::wrap::columns::plain_columns;

// What stands for the characters that are left out.
const ELLIPSIS: char = '\u{2026}';

/// Returns a name in at most this number of columns, if none of its characters takes three: the whole
/// name if it fits, else shortened. A name with wide characters is shortened as if all were wide.
pub fn fitted_name(alloc: Global, name: &str, room: usize) -> Result<String, AllocError>
    ensures { IfOk result (λ text. characters_of text ≡ fitted_name name.now room) }
{
    let columns = columns_of(name);
    if usize::from(columns) <= room {
        return String::from_str(alloc, name);
    }
    if character_count(name) < usize::from(columns) {
        return shortened(alloc, name, room / 2);
    }
    shortened(alloc, name, room)
}

/// Returns the number of a text's columns, of which at most 65,535 are counted.
pub fn columns_of(text: &str) -> u16
    ensures { result ≡ text_columns text.now }
{
    let mut columns = 0;
    for c in text.chars() {
        columns = (columns + plain_columns(c)).min(65_535);
    }
    columns as u16
}

#[tactic(auto, using(std::proofs::lemmas::Str::chars_from_encodes))]
fn character_count(text: &str) -> usize
    ensures { result ≡ length (chars text.now) }
{
    text.chars().count()
}

/// Returns a name in at most this number of characters: the whole name if it fits, else its start
/// and its end, of about the same length, with an ellipsis between them.
pub fn shortened(alloc: Global, name: &str, room: usize) -> Result<String, AllocError>
    ensures { IfOk result (λ text. characters_of text ≡ shortened (chars name.now) room) }
{
    let characters = characters(alloc, name)?;
    shortened_text(alloc, characters.as_slice(), room)
}

// Returns the characters of a text.
fn characters(alloc: Global, text: &str) -> Result<Vec<char>, AllocError>
    ensures { IfOk result (λ characters. characters.items ≡ chars text.now) }
{
    let mut characters = Vec::new(alloc);
    for c in text.chars() {
        characters.push(c)?;
    }
    Ok(characters)
}

fn shortened_text(alloc: Global, name: &[char], room: usize) -> Result<String, AllocError>
    ensures { IfOk result (λ text. characters_of text ≡ shortened name.now room) }
{
    let mut text = String::new(alloc);
    push_shortened(&mut text, name, room)?;
    Ok(text)
}

// Adds a name in at most this number of characters to a text.
fn push_shortened(text: &mut String, name: &[char], room: usize) -> Result<(), AllocError>
    ensures { OnOk result (characters_of text.new
        ≡ characters_of text.old ++ shortened name.now room) }
{
    if name.len() <= room {
        return push_all(text, name);
    }
    if room == 0 {
        return Ok(());
    }
    let end = (room - 1) / 2;
    let start = room - 1 - end;
    push_ends(text, &name[..start], &name[name.len() - end..])
}

// Adds two parts, with an ellipsis between them.
fn push_ends(text: &mut String, start: &[char], end: &[char]) -> Result<(), AllocError>
    ensures { OnOk result (characters_of text.new
        ≡ characters_of text.old ++ (start.now ++ 8230 ∷ end.now)) }
{
    push_all(text, start)?;
    push_cut(text, end)
}

// Adds an ellipsis, and a part after it.
fn push_cut(text: &mut String, end: &[char]) -> Result<(), AllocError>
    ensures { OnOk result (characters_of text.new ≡ characters_of text.old ++ 8230 ∷ end.now) }
{
    text.push(ELLIPSIS)?;
    push_all(text, end)
}

fn push_all(text: &mut String, characters: &[char]) -> Result<(), AllocError>
    ensures { OnOk result (characters_of text.new ≡ characters_of text.old ++ characters.now) }
{
    for c in characters {
        text.push(*c)?;
    }
    Ok(())
}
