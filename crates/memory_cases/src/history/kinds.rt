//! Kinds of edits, and texts as fragments.
ghost use Rattle.std.specs.Prelude.{◌≡◌, ◌<◌, ◌≤◌, ◌∷◌, [], vec_len, IfOk, IfSome};
ghost use Rattle.textarea_text.specs.Text.{text_of};
ghost use Rattle.textarea_history.specs.Edit.{inserts_of, line_count_of, symbols_of};

use std::alloc::{AllocError, Global};
use textarea_history::edit::EditKind;

/// Returns the fragment of a text, which is split into lines at each `|`.
pub fn line_count_in(alloc: Global, text: &str) -> Result<Vec<String>, AllocError>
    ensures { IfOk result (λ fragment_lines. 0 < vec_len fragment_lines) }
{
    let mut fragment_lines = Vec::new(alloc);
    for segment in text.split('|') {
        fragment_lines.push(String::from_str(alloc, segment)?)?;
    }
    if fragment_lines.is_empty() {
        fragment_lines.push(String::new(alloc))?;
    }
    Ok(fragment_lines)
}

/// Returns the kind that inserts or removes the fragment.
pub fn kind_of(mut fragment_lines: Vec<String>, inserts: bool) -> EditKind
    requires { 0 < vec_len fragment_lines }
    ensures symbols { symbols_of result ≡ text_of fragment_lines.items }
    ensures inserts { inserts_of result ≡ inserts }
    ensures fragment_lines { IfSome (line_count_of result) (λ n. 2 ≤ n) }
{
    if 1 < fragment_lines.len() {
        return if inserts {
            EditKind::InsertChunk(fragment_lines)
        } else {
            EditKind::DeleteChunk(fragment_lines)
        };
    }
    let text = fragment_lines.pop().unwrap();
    if inserts {
        EditKind::InsertStr(text)
    } else {
        EditKind::DeleteStr(text)
    }
}
