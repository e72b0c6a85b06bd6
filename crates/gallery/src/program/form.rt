//! # Form
//!
//! A form: three fields of one line. One can't be changed, and the others check themselves.
//!
//! Keys: Tab, Enter: the next field; Shift with Tab: the one before; Enter in the last one sends it
//!
//! - Each field is a text area. `take` gives the keys to the one with the focus, which is the only
//!   one that shows its cursor.
//! - `set_single_line` makes a pasted line end a space, `set_max_chars` leaves out a port's sixth
//!   digit, and `set_read_only` all that is typed.
//! - The border of a field is green once its text is right.
//! - `intersection` cuts a field off where the screen is too low.
ghost use Rattle.gallery.specs.Ends.{EndsByEscPerhapsEnter};

use crate::program::{checked_style, cursor_style, field, say, titled};
use std::alloc::{AllocError, Global};
use tui_textarea::{Buffer, Input, Key, Rect, TextArea};

#[derive(Drop)]
pub struct Form {
    fields: Vec<(&'static str, TextArea<'static>)>,
    focus: usize,
}

fn is_right(title: &str, text: &str) -> bool {
    match title {
        " Port " => text.parse::<u16>().is_ok(),
        " Secret " => text.chars().count() >= 8,
        _ => true,
    }
}

// What a field asks for.
fn asked_by(title: &str) -> &'static str {
    match title {
        " Port " => "Type a number, at most 65535.",
        _ => "Type at least 8 characters.",
    }
}

// An empty field of one line.
fn line_field(alloc: Global, title: &'static str) -> Result<TextArea<'static>, AllocError> {
    let mut area = field(alloc, title)?;
    area.set_single_line(true);
    Ok(area)
}

// A field with a text that can't be changed.
fn server_field(alloc: Global, title: &'static str) -> Result<TextArea<'static>, AllocError> {
    let mut area = line_field(alloc, title)?;
    let filled = area.insert_str("example.org");
    area.set_read_only(true);
    filled.map(|_| area)
}

// A field for five digits.
fn port_field(alloc: Global, title: &'static str) -> Result<TextArea<'static>, AllocError> {
    let mut area = line_field(alloc, title)?;
    area.set_max_chars(Some(5));
    Ok(area)
}

impl Form {
    pub fn new(alloc: Global) -> Result<Form, AllocError> {
        let mut fields = Vec::new(alloc);
        fields.push((" Server ", server_field(alloc, " Server ")?))?;
        fields.push((" Port ", port_field(alloc, " Port ")?))?;
        fields.push((" Secret ", line_field(alloc, " Secret ")?))?;
        Ok(Form { fields, focus: 0 })
    }

    // The first field that isn't right, with what it asks for.
    fn first_wrong(&self) -> Option<(usize, &'static str)> {
        for (index, (title, field)) in self.fields.iter().enumerate() {
            if !is_right(title, field.lines()[0].as_str()) {
                return Some((index, asked_by(title)));
            }
        }
        None
    }

    /// Tab and Enter go to the next field, Shift with Tab to the one before. In the last field
    /// Enter sends the form, which ends the program, or goes to the first field that isn't right.
    /// Esc ends the program.
    pub fn take(&mut self, input: Input) -> Result<bool, AllocError>
        ensures ends { EndsByEscPerhapsEnter input.key result }
    {
        match input.key {
            Key::Esc => return Ok(false),
            Key::Enter if self.focus >= 2 => match self.first_wrong() {
                Some((wrong, _)) => self.focus = wrong,
                None => return Ok(false),
            },
            Key::Tab if input.shift => self.focus = self.focus.checked_sub(1).unwrap_or(2),
            Key::Tab | Key::Enter => self.focus = if self.focus < 2 { self.focus + 1 } else { 0 },
            _ => {
                if let Some((_, field)) = self.fields.get_mut(self.focus) {
                    field.input_without_shortcuts(input)?;
                }
            }
        }
        Ok(true)
    }

    /// Inserts a pasted text into the field with the focus.
    pub fn paste(&mut self, text: &str) -> Result<(), AllocError> {
        if let Some((_, field)) = self.fields.get_mut(self.focus) {
            field.insert_pasted(text)?;
        }
        Ok(())
    }

    /// Draws the fields one below another, and then what is asked for. The border of a field that is
    /// right is green.
    pub fn draw(&mut self, screen: Rect, buffer: &mut Buffer) -> Result<(), AllocError> {
        let alloc = *self.fields.allocator();
        let mut area = Rect::new(screen.x, screen.y, screen.width, 3);
        for (index, (title, field)) in self.fields.iter_mut().enumerate() {
            let style = checked_style(is_right(title, field.lines()[0].as_str()));
            field.set_block(titled(alloc, title)?.border_style(style));
            field.set_cursor_style(cursor_style(index == self.focus));
            field.render(area.intersection(screen), buffer)?;
            area = Rect::new(area.x, area.bottom(), area.width, 3);
        }
        let asked = match self.first_wrong() {
            Some((_, asked)) => asked,
            None => "Enter in the last field sends it.",
        };
        say(buffer, area, asked)
    }
}
