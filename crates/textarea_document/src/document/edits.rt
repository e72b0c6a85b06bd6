//! Edits built from the arguments of calls and from removed text.
ghost use Rattle.std.specs.Prelude.{◌≡◌, ◌<◌, ◌≤◌, ◌∷◌, [], vec_len, IfOk, IfSome};
ghost use Rattle.std.specs.Arc.{arc_value};
ghost use Rattle.textarea_document.specs.Prelude.{characters, characters_of, text_of};

use std::alloc::AllocError;
use std::sync::Arc;
use textarea_history::edit::{Edit, EditKind};

// Returns the edit that inserts the fragment between two positions, or removes it from there.
pub(super) fn edit_of(
    fragment_lines: Arc<Vec<String>>,
    inserts: bool,
    start: (usize, usize),
    end: (usize, usize),
) -> Result<Edit, AllocError>
    requires { 0 < vec_len (arc_value fragment_lines) }
    ensures splice { IfOk result (λ edit. edit.splice ≡ record {
      place = start;
      symbols = text_of (arc_value fragment_lines).items;
      inserts = inserts;
    }) }
    ensures end { IfOk result (λ edit. edit.end ≡ end) }
    ensures fragment_lines { IfOk result (λ edit. IfSome edit.fragment_lines (λ n. 2 ≤ n)) }
{
    if 1 < fragment_lines.len() {
        return Ok(Edit::of_fragment(fragment_lines, inserts, start, end));
    }
    let text = only_line(fragment_lines)?;
    Ok(if inserts {
        Edit::between(EditKind::InsertStr(text), start, end)
    } else {
        Edit::between(EditKind::DeleteStr(text), end, start)
    })
}

// Returns the line of a fragment of one line; a copy of it if the fragment has other owners.
fn only_line(fragment_lines: Arc<Vec<String>>) -> Result<String, AllocError>
    requires { vec_len (arc_value fragment_lines) ≡ 1 }
    ensures { IfOk result (λ line.
        characters (characters_of line) ≡ text_of (arc_value fragment_lines).items) }
{
    let mut lines = Arc::unwrap_or_clone(fragment_lines)?;
    Ok(lines.pop().unwrap())
}
