ghost use Rattle.std.specs.Prelude.{◌≡◌, Some};
ghost use Rattle.textarea_c_data.specs.Styles.{plain_style, style_of_numbers};

use crate::color::CColor;
use textarea_screen::screen;
use textarea_screen::screen::Modifier;

/// A change to the colours and modifiers of cells. A colour that is none leaves the cell's colour;
/// first the modifiers `add_modifier` are added, then those of `sub_modifier` are removed, each a
/// set of `TA_MODIFIER_..`. With all bytes zero it is the empty style, which changes nothing.
#[repr(C)]
#[derive(Clone, Copy, Debug, PartialEq, Eq)]
pub struct CStyle {
    pub fg: CColor,
    pub bg: CColor,
    pub add_modifier: u16,
    pub sub_modifier: u16,
}

impl CStyle {
    /// Returns the style, or `None` if one of its colours has a kind that does not exist.
    pub fn read(self) -> Option<screen::Style>
        ensures { result ≡ style_of_numbers self }
    {
        Some(screen::Style {
            fg: self.fg.read()?,
            bg: self.bg.read()?,
            add_modifier: Modifier(self.add_modifier),
            sub_modifier: Modifier(self.sub_modifier),
        })
    }

    /// Returns the struct that is read as this style.
    pub fn of(style: screen::Style) -> CStyle
        ensures value { result ≡ plain_style style }
        ensures read { style_of_numbers result ≡ Some style }
    {
        CStyle {
            fg: CColor::of(style.fg),
            bg: CColor::of(style.bg),
            add_modifier: style.add_modifier.0,
            sub_modifier: style.sub_modifier.0,
        }
    }
}
