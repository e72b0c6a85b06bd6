//! The colours that a terminal has, by the variables of its environment.
ghost use Rattle.std.specs.Prelude.{◌↔◌, IsTrue};
ghost use Rattle.std.specs.Str.Iter.{HasSubslice};
ghost use Rattle.textarea_editor.specs.TerminalColors.{HasTwoColors, HasTrue, IsColorsOf, IsTrueTerm};

use textarea_terminal::output::Colors;

/// Returns the colours of a terminal, by the values of `NO_COLOR`, `COLORTERM` and `TERM`, each
/// empty if it isn't set. `NO_COLOR` with any text asks for none.
pub fn terminal_colors(no_color: &str, colorterm: &str, term: &str) -> Colors
    ensures { IsColorsOf no_color.now colorterm.now term.now result }
{
    if !no_color.is_empty() {
        return Colors::None;
    }
    if has_true(colorterm, term) {
        return Colors::True;
    }
    if has(term, "256color") {
        return Colors::Indexed;
    }
    if has_none(term) {
        return Colors::None;
    }
    Colors::Sixteen
}

// Returns whether the terminal has all colours.
fn has_true(colorterm: &str, term: &str) -> bool
    ensures { IsTrue result ↔ HasTrue colorterm.now term.now }
{
    colorterm == "truecolor" || colorterm == "24bit" || is_true_term(term)
}

// Returns whether a terminal of this name has all colours.
fn is_true_term(term: &str) -> bool
    ensures { IsTrue result ↔ IsTrueTerm term.now }
{
    has(term, "-direct")
        || has(term, "kitty")
        || has(term, "alacritty")
        || has(term, "foot")
        || has(term, "wezterm")
}

// Returns whether a terminal of this name has no colours but its own two.
fn has_none(term: &str) -> bool
    ensures { IsTrue result ↔ HasTwoColors term.now }
{
    term == "dumb" || term == "vt100" || term == "vt220"
}

fn has(text: &str, part: &str) -> bool
    ensures { IsTrue result ↔ HasSubslice text.now part.now }
{
    text.contains(part)
}
