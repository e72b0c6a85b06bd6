//! Colours and modifiers of a style by their names.
ghost use Rattle.std.specs.Prelude.{◌≡◌, Some};

use super::Style;
use crate::screen::color::Color;
use crate::screen::modifier::Modifier;

impl Style {
    ghost use Rattle.textarea_screen.specs.Style.{with_modifier};

    /// Returns the style with the foreground colour black.
    pub fn black(self) -> Style
        ensures { result ≡ record self { fg = Some Color.Black } }
    {
        self.fg(Color::Black)
    }

    /// Returns the style with the foreground colour red.
    pub fn red(self) -> Style
        ensures { result ≡ record self { fg = Some Color.Red } }
    {
        self.fg(Color::Red)
    }

    /// Returns the style with the foreground colour green.
    pub fn green(self) -> Style
        ensures { result ≡ record self { fg = Some Color.Green } }
    {
        self.fg(Color::Green)
    }

    /// Returns the style with the foreground colour yellow.
    pub fn yellow(self) -> Style
        ensures { result ≡ record self { fg = Some Color.Yellow } }
    {
        self.fg(Color::Yellow)
    }

    /// Returns the style with the foreground colour blue.
    pub fn blue(self) -> Style
        ensures { result ≡ record self { fg = Some Color.Blue } }
    {
        self.fg(Color::Blue)
    }

    /// Returns the style with the foreground colour magenta.
    pub fn magenta(self) -> Style
        ensures { result ≡ record self { fg = Some Color.Magenta } }
    {
        self.fg(Color::Magenta)
    }

    /// Returns the style with the foreground colour cyan.
    pub fn cyan(self) -> Style
        ensures { result ≡ record self { fg = Some Color.Cyan } }
    {
        self.fg(Color::Cyan)
    }

    /// Returns the style with the foreground colour gray.
    pub fn gray(self) -> Style
        ensures { result ≡ record self { fg = Some Color.Gray } }
    {
        self.fg(Color::Gray)
    }

    /// Returns the style with the foreground colour dark gray.
    pub fn dark_gray(self) -> Style
        ensures { result ≡ record self { fg = Some Color.DarkGray } }
    {
        self.fg(Color::DarkGray)
    }

    /// Returns the style with the foreground colour light red.
    pub fn light_red(self) -> Style
        ensures { result ≡ record self { fg = Some Color.LightRed } }
    {
        self.fg(Color::LightRed)
    }

    /// Returns the style with the foreground colour light green.
    pub fn light_green(self) -> Style
        ensures { result ≡ record self { fg = Some Color.LightGreen } }
    {
        self.fg(Color::LightGreen)
    }

    /// Returns the style with the foreground colour light yellow.
    pub fn light_yellow(self) -> Style
        ensures { result ≡ record self { fg = Some Color.LightYellow } }
    {
        self.fg(Color::LightYellow)
    }

    /// Returns the style with the foreground colour light blue.
    pub fn light_blue(self) -> Style
        ensures { result ≡ record self { fg = Some Color.LightBlue } }
    {
        self.fg(Color::LightBlue)
    }

    /// Returns the style with the foreground colour light magenta.
    pub fn light_magenta(self) -> Style
        ensures { result ≡ record self { fg = Some Color.LightMagenta } }
    {
        self.fg(Color::LightMagenta)
    }

    /// Returns the style with the foreground colour light cyan.
    pub fn light_cyan(self) -> Style
        ensures { result ≡ record self { fg = Some Color.LightCyan } }
    {
        self.fg(Color::LightCyan)
    }

    /// Returns the style with the foreground colour white.
    pub fn white(self) -> Style
        ensures { result ≡ record self { fg = Some Color.White } }
    {
        self.fg(Color::White)
    }

    /// Returns the style with the background colour black.
    pub fn on_black(self) -> Style
        ensures { result ≡ record self { bg = Some Color.Black } }
    {
        self.bg(Color::Black)
    }

    /// Returns the style with the background colour red.
    pub fn on_red(self) -> Style
        ensures { result ≡ record self { bg = Some Color.Red } }
    {
        self.bg(Color::Red)
    }

    /// Returns the style with the background colour green.
    pub fn on_green(self) -> Style
        ensures { result ≡ record self { bg = Some Color.Green } }
    {
        self.bg(Color::Green)
    }

    /// Returns the style with the background colour yellow.
    pub fn on_yellow(self) -> Style
        ensures { result ≡ record self { bg = Some Color.Yellow } }
    {
        self.bg(Color::Yellow)
    }

    /// Returns the style with the background colour blue.
    pub fn on_blue(self) -> Style
        ensures { result ≡ record self { bg = Some Color.Blue } }
    {
        self.bg(Color::Blue)
    }

    /// Returns the style with the background colour magenta.
    pub fn on_magenta(self) -> Style
        ensures { result ≡ record self { bg = Some Color.Magenta } }
    {
        self.bg(Color::Magenta)
    }

    /// Returns the style with the background colour cyan.
    pub fn on_cyan(self) -> Style
        ensures { result ≡ record self { bg = Some Color.Cyan } }
    {
        self.bg(Color::Cyan)
    }

    /// Returns the style with the background colour gray.
    pub fn on_gray(self) -> Style
        ensures { result ≡ record self { bg = Some Color.Gray } }
    {
        self.bg(Color::Gray)
    }

    /// Returns the style with the background colour dark gray.
    pub fn on_dark_gray(self) -> Style
        ensures { result ≡ record self { bg = Some Color.DarkGray } }
    {
        self.bg(Color::DarkGray)
    }

    /// Returns the style with the background colour light red.
    pub fn on_light_red(self) -> Style
        ensures { result ≡ record self { bg = Some Color.LightRed } }
    {
        self.bg(Color::LightRed)
    }

    /// Returns the style with the background colour light green.
    pub fn on_light_green(self) -> Style
        ensures { result ≡ record self { bg = Some Color.LightGreen } }
    {
        self.bg(Color::LightGreen)
    }

    /// Returns the style with the background colour light yellow.
    pub fn on_light_yellow(self) -> Style
        ensures { result ≡ record self { bg = Some Color.LightYellow } }
    {
        self.bg(Color::LightYellow)
    }

    /// Returns the style with the background colour light blue.
    pub fn on_light_blue(self) -> Style
        ensures { result ≡ record self { bg = Some Color.LightBlue } }
    {
        self.bg(Color::LightBlue)
    }

    /// Returns the style with the background colour light magenta.
    pub fn on_light_magenta(self) -> Style
        ensures { result ≡ record self { bg = Some Color.LightMagenta } }
    {
        self.bg(Color::LightMagenta)
    }

    /// Returns the style with the background colour light cyan.
    pub fn on_light_cyan(self) -> Style
        ensures { result ≡ record self { bg = Some Color.LightCyan } }
    {
        self.bg(Color::LightCyan)
    }

    /// Returns the style with the background colour white.
    pub fn on_white(self) -> Style
        ensures { result ≡ record self { bg = Some Color.White } }
    {
        self.bg(Color::White)
    }

    /// Returns the style that also makes texts bold.
    pub fn bold(self) -> Style
        ensures { result ≡ with_modifier self Modifier.BOLD }
    {
        self.add_modifier(Modifier::BOLD)
    }

    /// Returns the style that also makes texts dim.
    pub fn dim(self) -> Style
        ensures { result ≡ with_modifier self Modifier.DIM }
    {
        self.add_modifier(Modifier::DIM)
    }

    /// Returns the style that also makes texts italic.
    pub fn italic(self) -> Style
        ensures { result ≡ with_modifier self Modifier.ITALIC }
    {
        self.add_modifier(Modifier::ITALIC)
    }

    /// Returns the style that also underlines texts.
    pub fn underlined(self) -> Style
        ensures { result ≡ with_modifier self Modifier.UNDERLINED }
    {
        self.add_modifier(Modifier::UNDERLINED)
    }

    /// Returns the style that also makes texts blink slowly.
    pub fn slow_blink(self) -> Style
        ensures { result ≡ with_modifier self Modifier.SLOW_BLINK }
    {
        self.add_modifier(Modifier::SLOW_BLINK)
    }

    /// Returns the style that also makes texts blink fast.
    pub fn rapid_blink(self) -> Style
        ensures { result ≡ with_modifier self Modifier.RAPID_BLINK }
    {
        self.add_modifier(Modifier::RAPID_BLINK)
    }

    /// Returns the style that also swaps the colours of texts and background.
    pub fn reversed(self) -> Style
        ensures { result ≡ with_modifier self Modifier.REVERSED }
    {
        self.add_modifier(Modifier::REVERSED)
    }

    /// Returns the style that also hides texts.
    pub fn hidden(self) -> Style
        ensures { result ≡ with_modifier self Modifier.HIDDEN }
    {
        self.add_modifier(Modifier::HIDDEN)
    }

    /// Returns the style that also crosses texts out.
    pub fn crossed_out(self) -> Style
        ensures { result ≡ with_modifier self Modifier.CROSSED_OUT }
    {
        self.add_modifier(Modifier::CROSSED_OUT)
    }
}
