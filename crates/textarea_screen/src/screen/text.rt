ghost use Rattle.std.specs.Prelude.{◌≡◌, [], ◌∷◌, IfOk, IsOk};

use super::style::Style;
use std::alloc::{AllocError, Global};

/// A borrowed or an owned text.
#[derive(Debug, Drop)]
pub enum SpanText<'a> {
    Borrowed(&'a str),
    Owned(String),
}

impl<'a> SpanText<'a> {
    ghost use Rattle.textarea_screen.specs.Text.{text_bytes, IsBorrowed, content_view};

    /// Returns the text.
    pub fn as_str(&self) -> &str
        ensures { result.now ≡ text_bytes self.now }
    {
        match self {
            SpanText::Borrowed(text) => text,
            SpanText::Owned(text) => text.as_str(),
        }
    }

    /// Returns a copy of the text. It allocates only if the text is owned.
    pub fn clone(&self) -> Result<SpanText<'a>, AllocError>
        ensures value { IfOk result (λ text. content_view text ≡ content_view self.now) }
        ensures borrowed { IsBorrowed self.now → IsOk result }
    {
        match self {
            SpanText::Borrowed(text) => Ok(SpanText::Borrowed(text)),
            SpanText::Owned(text) => Ok(SpanText::Owned(text.clone()?)),
        }
    }
}

/// A text in one style.
#[derive(Debug, Drop)]
pub struct Span<'a> {
    pub content: SpanText<'a>,
    pub style: Style,
}

impl<'a> Span<'a> {
    ghost use Rattle.textarea_screen.specs.declared.screen.text.SpanText.TheVariants.{Borrowed};
    ghost use Rattle.textarea_screen.specs.Style.{empty_style};
    ghost use Rattle.textarea_screen.specs.Text.{IsBorrowed, span_view};

    /// Returns a span of a borrowed text in the empty style. It allocates nothing.
    pub fn raw(text: &'a str) -> Span<'a>
        ensures { result ≡ record { content = Borrowed text.entry; style = empty_style } }
    {
        Span::styled(text, Style::new())
    }

    /// Returns a span of a borrowed text in a style. It allocates nothing.
    pub fn styled(text: &'a str, style: Style) -> Span<'a>
        ensures { result ≡ record { content = Borrowed text.entry; style = style } }
    {
        Span {
            content: SpanText::Borrowed(text),
            style,
        }
    }

    /// Returns a copy of the span. It allocates only if the text is owned.
    pub fn clone(&self) -> Result<Span<'a>, AllocError>
        ensures value { IfOk result (λ span. span_view span ≡ span_view self.now) }
        ensures borrowed { IsBorrowed self.now.content → IsOk result }
    {
        Ok(Span {
            content: self.content.clone()?,
            style: self.style,
        })
    }
}

/// Converts to a span of the borrowed text in the empty style. It allocates nothing.
impl<'a> From<&'a str> for Span<'a> {
    ghost use Rattle.textarea_screen.specs.declared.screen.text.SpanText.TheVariants.{Borrowed};
    ghost use Rattle.textarea_screen.specs.Style.{empty_style};

    ghost from_gives = { λ text span.
        span ≡ record { content = Borrowed text; style = empty_style } };

    fn from(text: &'a str) -> Span<'a> {
        Span::raw(text)
    }
}

/// Spans one after another. The style of the line is under theirs.
#[derive(Debug, Drop)]
pub struct Line<'a> {
    pub spans: Vec<Span<'a>>,
    pub style: Style,
}

impl<'a> Line<'a> {
    ghost use Rattle.textarea_screen.specs.declared.screen.text.SpanText.TheVariants.{Borrowed, Owned};
    ghost use Rattle.textarea_screen.specs.Style.{empty_style};
    ghost use Rattle.textarea_screen.specs.Text.{line_view};

    /// Returns a line without spans, in the empty style. It allocates nothing.
    pub fn new(alloc: Global) -> Line<'a>
        ensures { (result.spans.items ≡ []) × (result.style ≡ empty_style) }
    {
        Line::from_spans(Vec::new(alloc))
    }

    /// Returns a line of these spans, in the empty style.
    pub fn from_spans(spans: Vec<Span<'a>>) -> Line<'a>
        ensures { result ≡ record { spans = spans.entry; style = empty_style } }
    {
        Line {
            spans,
            style: Style::new(),
        }
    }

    /// Returns a line of one span that borrows this text, all in the empty style. It allocates the
    /// list of spans and copies no text. A `\n` in the text stays.
    pub fn from_str(alloc: Global, text: &'a str) -> Result<Line<'a>, AllocError>
        ensures spans { IfOk result (λ line. line.spans.items
            ≡ record { content = Borrowed text.entry; style = empty_style } ∷ []) }
        ensures style { IfOk result (λ line. line.style ≡ empty_style) }
    {
        let mut spans = Vec::new(alloc);
        spans.push(Span::raw(text))?;
        Ok(Line::from_spans(spans))
    }

    /// Returns a line of one span with this text, all in the empty style. A `\n` in the text stays.
    pub fn raw(text: String) -> Result<Line<'a>, AllocError>
        ensures spans { IfOk result (λ line. line.spans.items
            ≡ record { content = Owned text; style = empty_style } ∷ []) }
        ensures style { IfOk result (λ line. line.style ≡ empty_style) }
    {
        let mut spans = Vec::new(*text.allocator());
        spans.push(Span {
            content: SpanText::Owned(text),
            style: Style::new(),
        })?;
        Ok(Line::from_spans(spans))
    }

    /// Returns a copy of the line; the owned texts of its spans are copied. It allocates nothing if
    /// there is no span.
    pub fn clone(&self) -> Result<Line<'a>, AllocError>
        ensures value { IfOk result (λ line. line_view line ≡ line_view self.now) }
        ensures empty { self.now.spans.items ≡ [] → IsOk result }
    {
        let mut spans = Vec::with_capacity(*self.spans.allocator(), self.spans.len())?;
        for span in &self.spans {
            spans.push(span.clone()?)?;
        }
        Ok(Line {
            spans,
            style: self.style,
        })
    }
}

/// Lines one below another. The style of the text is under theirs.
#[derive(Debug, Drop)]
pub struct Text<'a> {
    pub lines: Vec<Line<'a>>,
    pub style: Style,
}

impl<'a> Text<'a> {
    ghost use Rattle.textarea_screen.specs.Style.{empty_style};
    ghost use Rattle.textarea_screen.specs.Text.{text_view};

    /// Returns a text without lines, in the empty style. It allocates nothing.
    pub fn new(alloc: Global) -> Text<'a>
        ensures { (result.lines.items ≡ []) × (result.style ≡ empty_style) }
    {
        Text::from_lines(Vec::new(alloc))
    }

    /// Returns a text of these lines, in the empty style.
    pub fn from_lines(lines: Vec<Line<'a>>) -> Text<'a>
        ensures { result ≡ record { lines = lines.entry; style = empty_style } }
    {
        Text {
            lines,
            style: Style::new(),
        }
    }

    /// Returns a copy of the text; the owned texts of its spans are copied. It allocates nothing if
    /// there is no line.
    pub fn clone(&self) -> Result<Text<'a>, AllocError>
        ensures value { IfOk result (λ text. text_view text ≡ text_view self.now) }
        ensures empty { self.now.lines.items ≡ [] → IsOk result }
    {
        let mut lines = Vec::with_capacity(*self.lines.allocator(), self.lines.len())?;
        for line in &self.lines {
            lines.push(line.clone()?)?;
        }
        Ok(Text {
            lines,
            style: self.style,
        })
    }
}
