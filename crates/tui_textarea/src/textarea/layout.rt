//! The layout of the text: wrap mode, tab stops, line numbers and alignment.
ghost use Rattle.std.specs.Prelude.{◌≡◌, IsOk, OnErr, OnOk, false, true};
ghost use Rattle.tui_textarea.specs.LayoutCalls.{
  alignment_set,
  mode_set,
  number_style,
  line_numbers_set,
  keeps_layout,
  tab_length,
  tab_length_set,
  with_alignment,
  with_line_numbers,
  with_tab_length,
  with_wrap_mode,
  without_line_numbers,
};

use crate::textarea::TextArea;
use std::alloc::AllocError;
use textarea_screen::screen::{Alignment, Style};
use textarea_view::look::Look;
use textarea_wrap::wrap::WrapMode;

impl TextArea<'_> {
    /// Sets how lines are wrapped. If that changes the layout, all lines are wrapped again, each
    /// once; only then memory is needed. Before the first `render` no line is wrapped.
    pub fn set_wrap_mode(&mut self, mode: WrapMode) -> Result<(), AllocError>
        ensures ok { OnOk result (self.new ≡ with_wrap_mode self.old mode) }
        ensures err { OnErr result (self.new ≡ self.old) }
        ensures no_memory { keeps_layout self.old (mode_set self.old mode) ≡ true → IsOk result }
    {
        let mut settings = self.document.layout_settings();
        settings.mode = mode;
        self.document.set_layout_settings(settings)
    }

    /// Returns how lines are wrapped.
    pub fn wrap_mode(&self) -> WrapMode
        ensures { result ≡ self.now.document.layout.settings.mode }
    {
        self.document.layout_settings().mode
    }

    /// Sets the distance of tab stops, in columns; at 0 a tab inserts nothing. If that changes the
    /// layout, all lines are wrapped again, each once; only then memory is needed.
    pub fn set_tab_length(&mut self, tab_length: u8) -> Result<(), AllocError>
        ensures ok { OnOk result (self.new ≡ with_tab_length self.old tab_length) }
        ensures err { OnErr result (self.new ≡ self.old) }
        ensures no_memory { keeps_layout self.old (tab_length_set self.old tab_length) ≡ true
            → IsOk result }
    {
        let mut settings = self.document.layout_settings();
        settings.tab_len = tab_length;
        self.document.set_layout_settings(settings)
    }

    /// Returns the distance of tab stops, in columns.
    pub fn tab_length(&self) -> u8
        ensures { result ≡ tab_length self.now.document }
    {
        self.document.layout_settings().tab_len
    }

    /// Shows line numbers, counted from 1, in this style. If that changes the layout, all lines are
    /// wrapped again, each once; only then memory is needed.
    pub fn set_line_number_style(&mut self, style: Style) -> Result<(), AllocError>
        ensures ok { OnOk result (self.new ≡ with_line_numbers self.old style) }
        ensures err { OnErr result (self.new ≡ self.old) }
        ensures no_memory { keeps_layout self.old (line_numbers_set self.old true) ≡ true → IsOk
            result }
    {
        let mut settings = self.document.layout_settings();
        settings.line_numbers = true;
        self.document.set_layout_settings(settings)?;
        let look = self.drawing.look();
        self.drawing.set_look(Look {
            line_number_style: style,
            ..look
        });
        Ok(())
    }

    /// Hides the line numbers. If that changes the layout, all lines are wrapped again, each once;
    /// only then memory is needed.
    pub fn remove_line_number(&mut self) -> Result<(), AllocError>
        ensures ok { OnOk result (self.new ≡ without_line_numbers self.old) }
        ensures err { OnErr result (self.new ≡ self.old) }
        ensures no_memory { keeps_layout self.old (line_numbers_set self.old false) ≡ true → IsOk
            result }
    {
        let mut settings = self.document.layout_settings();
        settings.line_numbers = false;
        self.document.set_layout_settings(settings)
    }

    /// Returns the style of the line numbers, or `None` if they are hidden.
    pub fn line_number_style(&self) -> Option<Style>
        ensures { result ≡ number_style self.now }
    {
        if self.document.layout_settings().line_numbers {
            Some(self.drawing.look().line_number_style)
        } else {
            None
        }
    }

    /// Sets the alignment of visual rows in the inner area. In the middle and at the right it also
    /// hides the line numbers; if that changes the layout, all lines are wrapped again, each once,
    /// and only then memory is needed.
    pub fn set_alignment(&mut self, alignment: Alignment) -> Result<(), AllocError>
        ensures ok { OnOk result (self.new ≡ with_alignment self.old alignment) }
        ensures err { OnErr result (self.new ≡ self.old) }
        ensures no_memory { keeps_layout self.old (alignment_set self.old alignment) ≡ true
            → IsOk result }
    {
        if alignment != Alignment::Left {
            self.remove_line_number()?;
        }
        let look = self.drawing.look();
        self.drawing.set_look(Look { alignment, ..look });
        Ok(())
    }

    /// Returns the alignment of visual rows in the inner area.
    pub fn alignment(&self) -> Alignment
        ensures { result ≡ self.now.drawing.look.alignment }
    {
        self.drawing.look().alignment
    }
}
