//! The symbols of a change, copied as lines.
ghost use Rattle.std.specs.Prelude.{◌≡◌, ◌<◌, ◌∷◌, [], length, vec_len, IfOk};
ghost use Rattle.textarea_history.specs.Prelude.{chars, lines_of, text_of};

use super::{Change, Content};
use crate::texts::reverse_text;
use std::alloc::{AllocError, Global};
use textarea_text::fragment::copy_fragment;

impl Change<'_> {
    /// Returns a copy of its symbols as lines, at least one.
    pub fn copied_lines(&self, alloc: Global) -> Result<Vec<String>, AllocError>
        ensures some { IfOk result (λ copy. 0 < vec_len copy) }
        ensures text { IfOk result (λ copy. text_of copy.items ≡ self.now.symbols) }
    {
        let edit = self.edit;
        match &edit.content {
            Content::Character(c) => {
                let mut buffer = [0u8; 4];
                one_line(alloc, c.encode_utf8(&mut buffer))
            }
            Content::Text(text) => one_line(alloc, text.as_str()),
            Content::Typed(text) if edit.inserts => one_line(alloc, text.as_str()),
            Content::Typed(text) => {
                let restored = reverse_text(alloc, text.as_str())?;
                one_line(alloc, restored.as_str())
            }
            Content::Break => copy_fragment(alloc, &[String::new(alloc), String::new(alloc)]),
            Content::Lines(fragment_lines) => copy_fragment(alloc, fragment_lines.as_slice()),
            Content::Shared(fragment_lines) => copy_fragment(alloc, fragment_lines.as_slice()),
        }
    }
}

// Returns a copy of the text as the only line.
fn one_line(alloc: Global, text: &str) -> Result<Vec<String>, AllocError>
    ensures len { IfOk result (λ copy. vec_len copy ≡ 1) }
    ensures line { IfOk result (λ copy. lines_of copy.items ≡ chars text.now ∷ []) }
{
    let line = String::from_str(alloc, text)?;
    let mut lines = Vec::new(alloc);
    lines.push(line)?;
    Ok(lines)
}
