//! How the text area looks, but for its styles: a mask, the cursor's cell, and custom highlights.
ghost use Rattle.std.specs.Prelude.{◌≡◌, None, Some, OnErr, OnOk};
ghost use Rattle.tui_textarea.specs.Drawing.{highlighted, unhighlighted, with_look_set};

use crate::textarea::TextArea;
use std::alloc::AllocError;
use textarea_data::cursor::CursorRenderMode;
use textarea_screen::screen::Style;
use textarea_view::look::{CustomHighlight, Look};

impl TextArea<'_> {
    /// Shows this character instead of each character of the text. The cursor's cell and
    /// `cursor_at_position` still follow the columns of the text itself.
    pub fn set_mask_char(&mut self, mask: char)
        ensures { self.new ≡ with_look_set self.old
            (record self.old.drawing.look { mask = Some mask }) }
    {
        self.drawing.set_look(Look {
            mask: Some(mask),
            ..self.drawing.look()
        });
    }

    /// Shows the text itself again.
    pub fn clear_mask_char(&mut self)
        ensures { self.new ≡ with_look_set self.old (record self.old.drawing.look { mask = None }) }
    {
        self.drawing.set_look(Look {
            mask: None,
            ..self.drawing.look()
        });
    }

    /// Returns the character that is shown instead of each character of the text, if one is set.
    pub fn mask_char(&self) -> Option<char>
        ensures { result ≡ self.now.drawing.look.mask }
    {
        self.drawing.look().mask
    }

    /// Sets whether the cell at the cursor has its own style, or is drawn as any other because the
    /// terminal's own cursor is there.
    pub fn set_cursor_render_mode(&mut self, mode: CursorRenderMode)
        ensures { self.new
            ≡ with_look_set self.old (record self.old.drawing.look { cursor_render_mode = mode }) }
    {
        self.drawing.set_look(Look {
            cursor_render_mode: mode,
            ..self.drawing.look()
        });
    }

    /// Returns how the cell at the cursor is drawn.
    pub fn cursor_render_mode(&self) -> CursorRenderMode
        ensures { result ≡ self.now.drawing.look.cursor_render_mode }
    {
        self.drawing.look().cursor_render_mode
    }

    /// Highlights the text between two positions, each a row and a byte offset in it. A byte inside
    /// a character counts as the character's first byte, one past the line's end as the end. Where
    /// several highlights begin at one position, the one of the highest priority is visible, among
    /// equals the last one added. The cursor has priority 30, a match 20, a selection 10.
    /// Highlights do not move when the text changes.
    pub fn custom_highlight(
        &mut self,
        range: ((usize, usize), (usize, usize)),
        style: Style,
        priority: u8,
    ) -> Result<(), AllocError>
        ensures ok { OnOk result (self.new ≡ highlighted self.old range style priority) }
        ensures err { OnErr result (self.new ≡ self.old) }
    {
        self.drawing.add_highlight(CustomHighlight {
            start: range.0,
            end: range.1,
            style,
            priority,
        })
    }

    /// Removes all custom highlights.
    pub fn clear_custom_highlight(&mut self)
        ensures { self.new ≡ unhighlighted self.old }
    {
        self.drawing.clear_highlights();
    }
}
