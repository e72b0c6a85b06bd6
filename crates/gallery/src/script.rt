//! Scripts, which run programs without a terminal and print their screens.
//!
//! A line `== NAME COLUMNS ROWS` begins a program on a screen of this size. These lines follow:
//!
//! - `type TEXT`: each character is a key.
//! - `key NAME`: one key, after `Ctrl-`, `Alt-` and `Shift-`, as in `key Ctrl-u` or `key Enter`.
//! - `paste TEXT`: a pasted text, in which `\n` is a line break.
//! - `click COLUMN ROW`, `drag COLUMN ROW`: the left button of the mouse, at a cell counted from 0.
//! - `resize COLUMNS ROWS`: the screen gets this size.
//! - `wait N`: N milliseconds pass.
//! - `show CAPTION`: the screen is printed.
//!
//! A program that ends is told by a line `end NAME`.

use crate::picture::Picture;
use crate::program::Program;
use anyhow::{Context, Result, bail};
use std::io::Read;
use std::time::Duration;
use textarea_terminal::input::{Event, Mouse, MouseButton, MouseKind};
use tui_textarea::{Buffer, Input, Key, Rect};

/// A program that runs by a script.
#[derive(Drop)]
struct Stage<'a> {
    name: &'a str,
    program: Program,
    screen: Rect,
    now: Duration,
}

/// Runs the programs of the script on standard input, or only those of one name.
pub fn run(rt: &HostRuntime, only: Option<&str>) -> Result<()> {
    let mut text = String::new(rt.alloc());
    rt.stdin().read_to_string(&mut text)?;
    for section in text.split("== ").skip(1) {
        let (head, lines) = section.split_once('\n').unwrap_or((section, ""));
        let (name, size) = head.split_once(' ').unwrap_or((head, ""));
        if only.is_none_or(|only| only == name) {
            play(rt, name, size, lines)?;
        }
    }
    Ok(())
}

fn play(rt: &HostRuntime, name: &str, size: &str, lines: &str) -> Result<()> {
    let screen = screen_of(size)?;
    let mut stage = Stage {
        name,
        program: Program::new(rt.alloc(), name)?,
        screen,
        now: Duration::ZERO,
    };
    let played = stage.take_lines(rt, lines);
    drop(stage);
    played
}

// The screen with this number of columns and rows.
fn screen_of(size: &str) -> Result<Rect> {
    let (columns, rows) = size.split_once(' ').context("a size without rows")?;
    Ok(Rect::new(0, 0, columns.parse::<u16>()?, rows.parse::<u16>()?))
}

impl Stage<'_> {
    fn take_lines(&mut self, rt: &HostRuntime, lines: &str) -> Result<()> {
        for line in lines.lines() {
            self.take_line(rt, line)?;
        }
        Ok(())
    }

    fn take_line(&mut self, rt: &HostRuntime, line: &str) -> Result<()> {
        let (word, rest) = line.split_once(' ').unwrap_or((line, ""));
        match word {
            "" => Ok(()),
            "type" => self.type_text(rt, rest),
            "key" => {
                let input = input_named(rest).context("a key without a name")?;
                self.take(rt, &Event::Input(input))
            }
            "paste" => {
                let text = rest.replace(rt.alloc(), "\\n", "\n")?;
                self.take(rt, &Event::Paste(text))
            }
            "click" => self.point(rt, rest, MouseKind::Press(MouseButton::Left)),
            "drag" => self.point(rt, rest, MouseKind::Drag(MouseButton::Left)),
            "resize" => {
                self.screen = screen_of(rest)?;
                Ok(())
            }
            "wait" => {
                let time = Duration::from_millis(rest.parse::<u64>()?);
                self.now = self.now.saturating_add(time);
                Ok(())
            }
            "show" => self.show(rt, rest),
            _ => bail!("a line that is no step: {line}"),
        }
    }

    fn type_text(&mut self, rt: &HostRuntime, text: &str) -> Result<()> {
        for character in text.chars() {
            self.take(rt, &Event::Input(Input::from(character)))?;
        }
        Ok(())
    }

    // The mouse does this at a cell.
    fn point(&mut self, rt: &HostRuntime, cell: &str, kind: MouseKind) -> Result<()> {
        let (column, row) = cell.split_once(' ').context("a cell without a row")?;
        let mouse = Mouse {
            kind,
            column: column.parse::<u16>()?,
            row: row.parse::<u16>()?,
            ctrl: false,
            alt: false,
            shift: false,
        };
        self.take(rt, &Event::Mouse(mouse))
    }

    fn take(&mut self, rt: &HostRuntime, event: &Event) -> Result<()> {
        if !self.program.take(event, self.now)? {
            println!(rt; "end {}\n", self.name)?;
        }
        Ok(())
    }

    // Draws the screen and prints it.
    fn show(&mut self, rt: &HostRuntime, caption: &str) -> Result<()> {
        let mut buffer = Buffer::empty(rt.alloc(), self.screen)?;
        self.program.draw(self.screen, &mut buffer)?;
        let picture = Picture {
            name: self.name,
            caption,
            buffer: &buffer,
        };
        println!(rt; "{picture}")?;
        Ok(())
    }
}

// The input of a key by its name, after the modifiers that are pressed.
fn input_named(text: &str) -> Option<Input> {
    let (modifiers, name) = text.rsplit_once('-').unwrap_or(("", text));
    Some(Input {
        key: key_named(name)?,
        ctrl: modifiers.contains("Ctrl"),
        alt: modifiers.contains("Alt"),
        shift: modifiers.contains("Shift"),
    })
}

fn key_named(name: &str) -> Option<Key> {
    Some(match name {
        "Backspace" => Key::Backspace,
        "Delete" => Key::Delete,
        "Down" => Key::Down,
        "End" => Key::End,
        "Enter" => Key::Enter,
        "Esc" => Key::Esc,
        "Home" => Key::Home,
        "Left" => Key::Left,
        "PageDown" => Key::PageDown,
        "PageUp" => Key::PageUp,
        "Right" => Key::Right,
        "Tab" => Key::Tab,
        "Up" => Key::Up,
        _ => Key::Char(name.chars().next()?),
    })
}
