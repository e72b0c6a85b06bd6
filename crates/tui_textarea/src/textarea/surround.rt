//! The surround: a block around the text, a placeholder for an empty text, and height limits.
ghost use Rattle.std.specs.Prelude.{◌≡◌, [], IsOk, None, OnErr, OnOk, Some};
ghost use Rattle.std.specs.Option.{option_map};
ghost use Rattle.tui_textarea.specs.Prelude.{block_view, text_view, AreBounds, first_bytes, style_with_lines, with_max_rows, with_min_rows, with_placeholder_style, with_placeholder_text, with_surround};

use crate::textarea::TextArea;
use std::alloc::AllocError;
use textarea_screen::screen::{Block, Style, Text};

impl<'b> TextArea<'b> {
    /// Draws this block around the text, and replaces the old one.
    pub fn set_block(&mut self, block: Block<'b>)
        ensures { self.new
            ≡ with_surround self.old
            (record self.old.surround { block = Some (block_view block.entry) }) }
    {
        self.surround.set_block(block);
    }

    /// Removes the block, if there is one.
    pub fn remove_block(&mut self)
        ensures { self.new ≡ with_surround self.old (record self.old.surround { block = None }) }
    {
        self.surround.remove_block();
    }

    /// Returns the block around the text, if there is one.
    pub fn block(&self) -> Option<&Block<'b>>
        ensures { option_map (λ block. block_view block.now) result ≡ self.now.surround.block }
    {
        self.surround.block()
    }

    /// Sets the placeholder, which is shown while the text is empty, to one line of this text, even
    /// if it has line feeds; the empty text removes the line. The placeholder's style stays.
    pub fn set_placeholder_text(&mut self, text: &str) -> Result<(), AllocError>
        ensures ok { OnOk result
            (self.new ≡ with_surround self.old (with_placeholder_text self.old.surround text.now)) }
        ensures err { OnErr result (self.new ≡ self.old) }
        ensures empty { text.now ≡ [] → IsOk result }
    {
        self.surround.set_placeholder_text(text)
    }

    /// Sets the placeholder, which is shown while the text is empty, to these lines and their
    /// style; without lines there is none.
    pub fn set_styled_placeholder(&mut self, placeholder: Text<'b>)
        ensures { self.new
            ≡ with_surround self.old
            (record self.old.surround { placeholder = text_view placeholder.entry }) }
    {
        self.surround.set_styled_placeholder(placeholder);
    }

    /// Sets the style under those of the placeholder's lines, even while it has none.
    pub fn set_placeholder_style(&mut self, style: Style)
        ensures { self.new
            ≡ with_surround self.old (with_placeholder_style self.old.surround style) }
    {
        self.surround.set_placeholder_style(style);
    }

    /// Returns the whole placeholder, lines and style, even if it has no line.
    pub fn placeholder(&self) -> &Text<'b>
        ensures { text_view result.now ≡ self.now.surround.placeholder }
    {
        self.surround.placeholder()
    }

    /// Returns the text of the first span of the placeholder's first line; empty if there is none.
    pub fn placeholder_text(&self) -> &str
        ensures { result.now ≡ first_bytes self.now.surround.placeholder.lines }
    {
        self.surround.placeholder_text()
    }

    /// Returns the style of the placeholder, or `None` if it has no line.
    pub fn placeholder_style(&self) -> Option<Style>
        ensures { result
            ≡ style_with_lines self.now.surround.placeholder.lines
            self.now.surround.placeholder.style }
    {
        self.surround.placeholder_style()
    }

    /// Sets the least height of the whole area, in screen rows; 0 counts as 1. The greatest height
    /// is raised to it if it is less.
    pub fn set_min_rows(&mut self, rows: u16)
        ensures { self.new ≡ with_surround self.old (with_min_rows self.old.surround rows) }
    {
        self.surround.set_min_rows(rows);
    }

    /// Returns the least height of the whole area, in screen rows, from 1 to the greatest height.
    pub fn min_rows(&self) -> u16
        ensures value { result ≡ self.now.surround.min_rows }
        ensures bounds { AreBounds result self.now.surround.max_rows }
    {
        self.surround.min_rows()
    }

    /// Sets the greatest height of the whole area, in screen rows; 0 counts as 1, and less than the
    /// least height as that height.
    pub fn set_max_rows(&mut self, rows: u16)
        ensures { self.new ≡ with_surround self.old (with_max_rows self.old.surround rows) }
    {
        self.surround.set_max_rows(rows);
    }

    /// Returns the greatest height of the whole area, in screen rows: at least the least height.
    pub fn max_rows(&self) -> u16
        ensures value { result ≡ self.now.surround.max_rows }
        ensures bounds { AreBounds self.now.surround.min_rows result }
    {
        self.surround.max_rows()
    }
}
