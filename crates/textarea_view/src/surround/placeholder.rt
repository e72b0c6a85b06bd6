//! The placeholder, which is drawn instead of an empty text.
ghost use Rattle.std.specs.Prelude.{◌≡◌, [], IfOk, IsOk, OnErr, OnOk, length, map};
ghost use Rattle.textarea_view.specs.Prelude.{line_view, text_view, first_bytes, style_with_lines, plain_lines, with_placeholder_style, with_placeholder_text};

use crate::surround::Surround;
use std::alloc::{AllocError, Global};
use textarea_screen::screen::{Line, Style, Text};

impl<'a> Surround<'a> {
    /// Sets the placeholder to one line of this text, including any line feed. The empty text gives
    /// no line, so no placeholder is drawn. The placeholder's style is kept.
    pub fn set_placeholder_text(&mut self, text: &str) -> Result<(), AllocError>
        ensures ok { OnOk result (self.new ≡ with_placeholder_text self.old text.now) }
        ensures err { OnErr result (self.new ≡ self.old) }
        ensures empty { text.now ≡ [] → IsOk result }
    {
        let alloc = *self.placeholder.lines.allocator();
        self.placeholder.lines = plain_lines(alloc, text)?;
        Ok(())
    }

    /// Sets the placeholder's lines and style. A text without lines means that none is drawn.
    pub fn set_styled_placeholder(&mut self, placeholder: Text<'a>)
        ensures { self.new ≡ record self.old { placeholder = text_view placeholder.entry } }
    {
        self.placeholder = placeholder;
    }

    /// Sets the style under the styles of the placeholder's lines, also if it has no line.
    pub fn set_placeholder_style(&mut self, style: Style)
        ensures { self.new ≡ with_placeholder_style self.old style }
    {
        self.placeholder.style = style;
    }

    /// Returns the whole placeholder, its lines and its style, also if it has no line.
    pub fn placeholder(&self) -> &Text<'a>
        ensures { text_view result.now ≡ self.now.placeholder }
    {
        &self.placeholder
    }

    /// Returns the text of the first span of the placeholder's first line, or the empty text.
    pub fn placeholder_text(&self) -> &str
        ensures { result.now ≡ first_bytes self.now.placeholder.lines }
    {
        let Some(line) = self.placeholder.lines.first() else {
            return "";
        };
        match line.spans.first() {
            Some(span) => span.content.as_str(),
            None => "",
        }
    }

    /// Returns the style of the placeholder, or `None` if it has no line.
    pub fn placeholder_style(&self) -> Option<Style>
        ensures { result ≡ style_with_lines self.now.placeholder.lines self.now.placeholder.style }
    {
        (!self.placeholder.lines.is_empty()).then_some(self.placeholder.style)
    }

    /// Returns the number of the placeholder's lines. It is drawn only if it has one or more.
    pub fn placeholder_rows(&self) -> usize
        ensures { result ≡ length self.now.placeholder.lines }
    {
        self.placeholder.lines.len()
    }
}

// Returns one line of this text, including any line feed, or no line for the empty text.
fn plain_lines<'a>(alloc: Global, text: &str) -> Result<Vec<Line<'a>>, AllocError>
    ensures ok { IfOk result (λ lines. map line_view lines.items ≡ plain_lines text.now) }
    ensures empty { text.now ≡ [] → IsOk result }
{
    let mut lines = Vec::new(alloc);
    if !text.is_empty() {
        lines.push(Line::raw(String::from_str(alloc, text)?)?)?;
    }
    Ok(lines)
}
