//! The laws of the caret, for a drawing that left this document.
ghost use Rattle.std.specs.Prelude.{◌≡◌};
ghost use Rattle.tui_textarea.specs.DrawingPrelude.{IsCaretHit, WidgetState, IsWidgetRendered, IsCaretVisible, Rect};

use crate::drawing::laws::{caret_hit_is_cursor, caret_is_visible};
use textarea_document::Document;

// The hit test of a caret that is shown returns the document's cursor.
pub(super) fn caret_leads_back(document: &Document)
    ensures { (old new : WidgetState) (area : Rect) → new.document ≡ document.now →
        IsWidgetRendered old area new → IsCaretHit new }
{
    caret_hit_is_cursor();
    let _ = document.cursor();
}

// The caret is shown if there is room for it.
pub(super) fn caret_has_room(document: &Document)
    ensures { (old new : WidgetState) (area : Rect) → new.document ≡ document.now →
        IsWidgetRendered old area new → IsCaretVisible new }
{
    caret_is_visible();
    let _ = document.lines();
    let _ = document.layout_settings();
}
