mod names;

ghost use Rattle.std.specs.Prelude.{◌≡◌, Some};

use super::color::Color;
use super::modifier::Modifier;
use bitflags::Flags;

/// A change to the colours and modifiers of cells.
///
/// A colour of `None` leaves the cell's colour as it is. The modifiers of `add_modifier` are added
/// first; then those of `sub_modifier` are removed.
#[derive(Clone, Copy, Debug, PartialEq, Eq)]
pub struct Style {
    pub fg: Option<Color>,
    pub bg: Option<Color>,
    pub add_modifier: Modifier,
    pub sub_modifier: Modifier,
}

impl Style {
    ghost use Rattle.textarea_screen.specs.Modifier.{union_of, difference_of};
    ghost use Rattle.textarea_screen.specs.Style.{empty_style, patched};

    /// Returns the empty style, which changes nothing.
    pub const fn new() -> Style
        ensures { result ≡ empty_style }
    {
        Style {
            fg: None,
            bg: None,
            add_modifier: Modifier(0),
            sub_modifier: Modifier(0),
        }
    }

    /// Returns the style with this foreground colour.
    pub fn fg(self, color: Color) -> Style
        ensures { result ≡ record self { fg = Some color } }
    {
        Style {
            fg: Some(color),
            ..self
        }
    }

    /// Returns the style with this background colour.
    pub fn bg(self, color: Color) -> Style
        ensures { result ≡ record self { bg = Some color } }
    {
        Style {
            bg: Some(color),
            ..self
        }
    }

    /// Returns the style that also adds these modifiers and no longer removes them.
    pub fn add_modifier(self, modifier: Modifier) -> Style
        ensures { result ≡ record self {
          add_modifier = union_of self.add_modifier modifier;
          sub_modifier = difference_of self.sub_modifier modifier;
        } }
    {
        Style {
            add_modifier: self.add_modifier.union(modifier),
            sub_modifier: self.sub_modifier.difference(modifier),
            ..self
        }
    }

    /// Returns the style that also removes these modifiers and no longer adds them.
    pub fn remove_modifier(self, modifier: Modifier) -> Style
        ensures { result ≡ record self {
          add_modifier = difference_of self.add_modifier modifier;
          sub_modifier = union_of self.sub_modifier modifier;
        } }
    {
        Style {
            add_modifier: self.add_modifier.difference(modifier),
            sub_modifier: self.sub_modifier.union(modifier),
            ..self
        }
    }

    /// Returns the style that applies this style and then `over`.
    pub fn patch(self, over: Style) -> Style
        ensures { result ≡ patched self over }
    {
        Style {
            fg: over.fg.or(self.fg),
            bg: over.bg.or(self.bg),
            add_modifier: self
                .add_modifier
                .difference(over.sub_modifier)
                .union(over.add_modifier),
            sub_modifier: self
                .sub_modifier
                .difference(over.add_modifier)
                .union(over.sub_modifier),
        }
    }
}

impl Default for Style {
    ghost use Rattle.textarea_screen.specs.Style.{empty_style};

    ghost is_default = { λ style. style ≡ empty_style };

    fn default() -> Style {
        Style::new()
    }
}
