// Written by tools/calls from crates/textarea_calls/calls.txt.
//! The styles of a text area's look, each set and read by a call of its own.
ghost use Rattle.std.specs.Prelude.{◌≡◌};
ghost use Rattle.tui_textarea.specs.Drawing.{with_look_set};

use crate::textarea::TextArea;
use textarea_screen::screen::Style;
use textarea_view::look::Look;

impl TextArea<'_> {
    /// Sets the style of each cell of the inner area, under all others; a placeholder has its own.
    pub fn set_style(&mut self, style: Style)
        ensures { self.new ≡ with_look_set self.old
            (record self.old.drawing.look { style = style }) }
    {
        self.drawing.set_look(Look {
            style,
            ..self.drawing.look()
        });
    }

    /// Returns the style of each cell of the inner area, under all others.
    pub fn style(&self) -> Style
        ensures { result ≡ self.now.drawing.look.style }
    {
        self.drawing.look().style
    }

    /// Sets the style of the cell at the cursor.
    pub fn set_cursor_style(&mut self, style: Style)
        ensures { self.new ≡ with_look_set self.old
            (record self.old.drawing.look { cursor_style = style }) }
    {
        self.drawing.set_look(Look {
            cursor_style: style,
            ..self.drawing.look()
        });
    }

    /// Returns the style of the cell at the cursor.
    pub fn cursor_style(&self) -> Style
        ensures { result ≡ self.now.drawing.look.cursor_style }
    {
        self.drawing.look().cursor_style
    }

    /// Sets the style of the cursor's line, in all its visual rows, where no highlight is.
    pub fn set_cursor_line_style(&mut self, style: Style)
        ensures { self.new ≡ with_look_set self.old
            (record self.old.drawing.look { cursor_line_style = style }) }
    {
        self.drawing.set_look(Look {
            cursor_line_style: style,
            ..self.drawing.look()
        });
    }

    /// Returns the style of the cursor's line, where no highlight is.
    pub fn cursor_line_style(&self) -> Style
        ensures { result ≡ self.now.drawing.look.cursor_line_style }
    {
        self.drawing.look().cursor_line_style
    }

    /// Sets the style of the line number of the cursor's line, over the style of all line numbers.
    /// The blanks before the line's other visual rows aren't in it.
    pub fn set_cursor_line_number_style(&mut self, style: Style)
        ensures { self.new ≡ with_look_set self.old
            (record self.old.drawing.look { cursor_line_number_style = style }) }
    {
        self.drawing.set_look(Look {
            cursor_line_number_style: style,
            ..self.drawing.look()
        });
    }

    /// Returns the style of the line number of the cursor's line, over the style of all line
    /// numbers.
    pub fn cursor_line_number_style(&self) -> Style
        ensures { result ≡ self.now.drawing.look.cursor_line_number_style }
    {
        self.drawing.look().cursor_line_number_style
    }

    /// Sets the style of selected text.
    pub fn set_selection_style(&mut self, style: Style)
        ensures { self.new ≡ with_look_set self.old
            (record self.old.drawing.look { selection_style = style }) }
    {
        self.drawing.set_look(Look {
            selection_style: style,
            ..self.drawing.look()
        });
    }

    /// Returns the style of selected text.
    pub fn selection_style(&self) -> Style
        ensures { result ≡ self.now.drawing.look.selection_style }
    {
        self.drawing.look().selection_style
    }

    /// Sets the style of the search pattern's matches.
    pub fn set_search_style(&mut self, style: Style)
        ensures { self.new ≡ with_look_set self.old
            (record self.old.drawing.look { search_style = style }) }
    {
        self.drawing.set_look(Look {
            search_style: style,
            ..self.drawing.look()
        });
    }

    /// Returns the style of the search pattern's matches.
    pub fn search_style(&self) -> Style
        ensures { result ≡ self.now.drawing.look.search_style }
    {
        self.drawing.look().search_style
    }
}
