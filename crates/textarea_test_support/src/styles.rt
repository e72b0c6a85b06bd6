//! Names of styles.
use textarea_screen::screen::Color::*;
use textarea_screen::screen::{Color, Modifier, Style};

const NONE: Modifier = Modifier(0);

/// The named styles, by their colours and added modifiers. The first are those of a new text area
/// (`cursor`, `cursor_line`, `selected`, `matched`, and `gray` of a placeholder).
const STYLES: [(&str, Option<Color>, Option<Color>, Modifier); 19] = [
    ("plain", None, None, NONE),
    ("cursor", None, None, Modifier::REVERSED),
    ("cursor_line", None, None, Modifier::UNDERLINED),
    ("selected", None, Some(LightBlue), NONE),
    ("matched", None, Some(Blue), NONE),
    ("gray", Some(DarkGray), None, NONE),
    ("gray_cursor", Some(DarkGray), None, Modifier::REVERSED),
    ("red", Some(Red), None, NONE),
    ("bold_red", Some(Red), None, Modifier::BOLD),
    ("green", Some(Green), None, NONE),
    ("cyan", Some(Cyan), None, NONE),
    ("red_cursor", Some(Red), None, Modifier::REVERSED),
    ("on_yellow", None, Some(Yellow), NONE),
    ("cursor_on_yellow", None, Some(Yellow), Modifier::REVERSED),
    ("red_on_yellow", Some(Red), Some(Yellow), NONE),
    (
        "line_in_block",
        Some(Red),
        Some(Yellow),
        Modifier::UNDERLINED,
    ),
    (
        "cursor_in_block",
        Some(Red),
        Some(Yellow),
        Modifier::REVERSED,
    ),
    ("cyan_on_yellow", Some(Cyan), Some(Yellow), NONE),
    ("green_on_yellow", Some(Green), Some(Yellow), NONE),
];

fn style_of(fg: Option<Color>, bg: Option<Color>, add_modifier: Modifier) -> Style {
    Style {
        fg,
        bg,
        add_modifier,
        sub_modifier: NONE,
    }
}

/// Returns the style of this name.
pub fn style_named(name: &str) -> Option<Style> {
    for (own, fg, bg, modifier) in &STYLES {
        if *own == name {
            return Some(style_of(*fg, *bg, *modifier));
        }
    }
    None
}

/// Returns the name of this style, if it has one.
pub fn style_name(style: Style) -> Option<&'static str> {
    for (name, fg, bg, modifier) in &STYLES {
        if style_of(*fg, *bg, *modifier) == style {
            return Some(*name);
        }
    }
    None
}
