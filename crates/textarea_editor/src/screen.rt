//! The terminal's side of an editor: its bytes as events, and frames as its bytes.

ghost use Rattle.std.specs.List.{list_any};
ghost use Rattle.std.specs.Prelude.{◌≡◌, ◌⊎◌, ◌++◌, None, true, false, map, IfOk, OnErr, OnOk};
ghost use Rattle.textarea_editor.specs.Editor.{IsScreenArea};
ghost use Rattle.textarea_editor.specs.Screen.{IsOnlyDrawn};
ghost use Rattle.textarea_editor.specs.TerminalScreen.{IsFitted, IsFrameShown, clipboard_bytes, events_read, pause_of, reports_size, screen_read};
ghost use Rattle.textarea_terminal.specs.InputEvent.{value_of};
ghost use Rattle.textarea_terminal.specs.InputState.{new_decoder, on_console, with_expected};
ghost use Rattle.textarea_terminal.specs.InputStream.{Adds};
ghost use Rattle.textarea_terminal.specs.Painter.{painted, painter_area, painter_colors};

use crate::editor::Editor;
use base64::engine::general_purpose::STANDARD;
use std::alloc::{AllocError, Global};
use std::marker::Model;
use std::time::Duration;
use textarea_screen::screen::Rect;
use textarea_terminal::input::{Decoder, Event};
pub use textarea_terminal::output::Colors;
use textarea_terminal::output::Painter;

/// A terminal that shows frames of an editor.
///
/// In a clause it is a [`ScreenState`](../specs/TerminalScreen.antt).
#[derive(Drop)]
pub struct Screen {
    alloc: Global,
    decoder: Decoder,
    painter: Painter,
    area: Rect,
    /// The next frame draws all cells.
    is_stale: bool,
}

impl Model for Screen {
    ghost use Rattle.std.specs.Prelude.{◌≡◌};
    ghost use Rattle.textarea_editor.specs.TerminalScreen.{ScreenState};
    ghost use Rattle.textarea_terminal.specs.Painter.{painter_area};

    ghost Value = { ScreenState };

    ghost view = { λ screen. record {
      decoder = screen.decoder;
      painter = screen.painter;
      is_stale = screen.is_stale;
    } };

    ghost invariant = { λ screen. painter_area screen.painter ≡ screen.area };
}

impl Screen {
    /// Returns a terminal of which nothing is known but its size.
    pub fn new(alloc: Global, area: Rect) -> Result<Screen, AllocError>
        ensures decoder { IfOk result (λ screen. screen.decoder ≡ new_decoder) }
        ensures area { IfOk result (λ screen. painter_area screen.painter ≡ area) }
        ensures colors { IfOk result (λ screen. painter_colors screen.painter ≡ Colors.True) }
        ensures painted { IfOk result (λ screen. painted screen.painter ≡ None) }
        ensures stale { IfOk result (λ screen. screen.is_stale ≡ false) }
    {
        Ok(Screen {
            alloc,
            decoder: Decoder::new(alloc),
            painter: Painter::new(alloc, area)?,
            area,
            is_stale: false,
        })
    }

    /// Tells whether the terminal is the Linux console.
    pub fn set_console(&mut self, console: bool)
        ensures { self.new ≡ record self.old {
          decoder = with_expected self.old.decoder (on_console console self.old.decoder.expected);
        } }
    {
        self.decoder.set_console(console);
    }

    /// Returns the events of the next bytes, or, if none came in this time, those of bytes that wait
    /// for more. If one of them reports a size, the next frame draws all cells.
    ///
    /// If memory runs out, nothing changes: the same bytes may be read again.
    pub fn read(&mut self, bytes: &[u8], waited: Duration) -> Result<Vec<Event>, AllocError>
        ensures events { IfOk result (λ events. map value_of events.items
            ≡ (events_read self.old.decoder bytes.now (pause_of waited)).0) }
        ensures state { OnOk result
            (self.new ≡ screen_read self.old bytes.now (pause_of waited)) }
        ensures err { OnErr result (self.new ≡ self.old) }
    {
        let mut events = Vec::new(self.alloc);
        decode(&mut self.decoder, bytes, waited, &mut events)?;
        if any_reports_size(events.as_slice()) {
            self.forget();
        }
        Ok(events)
    }

    /// Has the next frame draw all cells, as after each report of a size: also if it is the one from
    /// before, rows may be lost in between.
    pub fn forget(&mut self)
        ensures { self.new ≡ record self.old { is_stale = true } }
    {
        self.is_stale = true;
    }

    /// Changes the colours that the terminal has, which are all at first. The next frame draws all
    /// cells.
    pub fn set_colors(&mut self, colors: Colors)
        ensures decoder { self.new.decoder ≡ self.old.decoder }
        ensures area { painter_area self.new.painter ≡ painter_area self.old.painter }
        ensures colors { painter_colors self.new.painter ≡ colors }
        ensures painted { painted self.new.painter ≡ None }
        ensures stale { self.new.is_stale ≡ self.old.is_stale }
    {
        self.painter.set_colors(colors);
    }

    /// Adds the bytes that show the editor's frame. They draw all cells after a report of a size, if
    /// the editor's screen has another size, and at first; else only those that have changed, and
    /// there are none if the terminal shows the frame already.
    ///
    /// If memory runs out, it adds none, and the terminal shows what it showed; the next frame may
    /// draw all cells.
    pub fn show(&mut self, editor: &mut Editor, out: &mut Vec<u8>) -> Result<(), AllocError>
        ensures shown { OnOk result (IsFrameShown self.old self.new editor.old editor.new
            out.old.items out.new.items) }
        ensures area { OnOk result (IsScreenArea editor.old (painter_area self.new.painter)) }
        ensures keeps { IsOnlyDrawn editor.old editor.new }
        ensures unwritten { OnErr result (out.new.items ≡ out.old.items) }
        // The terminal is known to show what it showed, or nothing is known of it.
        ensures unshown { OnErr result ((self.new ≡ self.old)
            ⊎ IsFitted self.old (painter_area self.new.painter) self.new) }
    {
        self.fit(editor.screen_area())?;
        let frame = editor.draw()?;
        self.painter.paint(&frame.buffer, frame.caret, out)
    }

    // Makes ready for a frame over an area.
    fn fit(&mut self, area: Rect) -> Result<(), AllocError>
        ensures ok { OnOk result (IsFitted self.old area self.new) }
        ensures err { OnErr result (self.new ≡ self.old) }
    {
        if self.is_stale || area != self.area {
            self.painter.resize(area)?;
            self.area = area;
            self.is_stale = false;
        }
        Ok(())
    }

    /// Adds the bytes that give a text to the terminal's clipboard (OSC 52). If memory runs out, it
    /// adds none.
    pub fn copy(&self, text: &str, out: &mut Vec<u8>) -> Result<(), AllocError>
        ensures ok { OnOk result (out.new.items ≡ out.old.items ++ clipboard_bytes text.now) }
        ensures err { OnErr result (out.new.items ≡ out.old.items) }
    {
        let encoded = STANDARD.encode(self.alloc, text.as_bytes())?;
        let sequence = format!(in self.alloc; "\x1b]52;c;{encoded}\x07")?;
        out.extend_from_slice(sequence.as_bytes())
    }
}

// Adds the events of bytes, or, if there are none, of the time that was waited for them.
fn decode(
    decoder: &mut Decoder,
    bytes: &[u8],
    waited: Duration,
    events: &mut Vec<Event>,
) -> Result<(), AllocError>
    ensures state { OnOk result
        (decoder.new ≡ (events_read decoder.old bytes.now (pause_of waited)).1) }
    ensures events { OnOk result (Adds events.old.items events.new.items
        (events_read decoder.old bytes.now (pause_of waited)).0) }
    ensures err { OnErr result ((decoder.new ≡ decoder.old)
        × (events.new.items ≡ events.old.items)) }
{
    match bytes {
        [] => decoder.idle(pause(waited), events),
        [_, ..] => decoder.feed(bytes, events),
    }
}

// The whole milliseconds of a time, at most those that a pause has.
fn pause(time: Duration) -> u32
    ensures { result ≡ pause_of time }
{
    u32::try_from(time.as_millis()).unwrap_or(u32::MAX)
}

fn any_reports_size(events: &[Event]) -> bool
    ensures { result ≡ list_any (λ event. reports_size (value_of event)) events.now }
{
    events.iter().any(|event| reports_size(event))
}

// Whether the terminal reports its size, or the cursor in its last cell.
fn reports_size(event: &Event) -> bool
    ensures { result ≡ reports_size (value_of event.now) }
{
    matches!(event, Event::Size { .. } | Event::Cursor { .. })
}
