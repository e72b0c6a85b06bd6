//! A view of a log. Its user can rely on it that keys only scroll: the text is that of the log.
ghost use Rattle.std.specs.Prelude.{◌≡◌, IfOk};
ghost use Rattle.std.specs.Str.{chars};
ghost use Rattle.textarea_uses.specs.LogView.{IsScrolledBy, scrolling_by};
ghost use Rattle.tui_textarea.specs.Prelude.{KeepsOutside, contains, fragment_symbols, without_last_break};

use std::alloc::{AllocError, Global};
use tui_textarea::outcomes::laws::others_edit_nothing;
use tui_textarea::{Buffer, Key, Rect, Scrolling, TextArea};

/// A log that is shown.
#[derive(Drop)]
pub struct LogView {
    area: TextArea<'static>,
}

// How far a key scrolls, if it does.
fn scrolling_of(key: Key) -> Option<Scrolling>
    ensures { result ≡ scrolling_by key }
{
    match key {
        Key::Down => Some(Scrolling::from((1, 0))),
        Key::Up => Some(Scrolling::from((-1, 0))),
        Key::PageDown => Some(Scrolling::PageDown),
        Key::PageUp => Some(Scrolling::PageUp),
        _ => None,
    }
}

impl LogView {
    /// Shows the log, from its first line on.
    pub fn new(alloc: Global, log: &str) -> Result<LogView, AllocError>
        ensures { IfOk result (λ view. view.area.document.text
            ≡ without_last_break (fragment_symbols (chars log.now))) }
    {
        let area = TextArea::from_text(alloc, log)?;
        Ok(LogView { area })
    }

    /// Scrolls by the key: a row by Up and Down, a page by Page Up and Page Down. The text stays,
    /// whatever the key is, and any other key does nothing.
    pub fn take(&mut self, key: Key)
        ensures scrolled { IsScrolledBy (scrolling_by key) self.old.area self.new.area }
        ensures text { self.new.area.document.text ≡ self.old.area.document.text }
    {
        others_edit_nothing();
        match scrolling_of(key) {
            Some(scrolling) => self.area.scroll(scrolling),
            None => {}
        }
    }

    /// Draws the log into an area of the screen. The text stays, and so do all cells outside.
    pub fn draw(&mut self, screen: Rect, buffer: &mut Buffer) -> Result<(), AllocError>
        ensures text { self.new.area.document.text ≡ self.old.area.document.text }
        ensures outside { KeepsOutside (contains screen) buffer.old buffer.new }
    {
        others_edit_nothing();
        self.area.render(screen, buffer)
    }
}
