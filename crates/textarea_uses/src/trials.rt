//! Runs of the uses on a few inputs. What owns a text area ends without a `?` while it is alive.
use crate::height::draw_at_bottom;
use crate::log_view::LogView;
use crate::matches::all_matches;
use crate::mentions::Note;
use crate::one_line::Field;
use crate::password::PasswordField;
use crate::prompt::{LinePrompt, send_all};
use crate::recorder::Recorder;
use crate::save::SavedText;
use crate::side_by_side::draw_both;
use anyhow::Result;
use std::alloc::{AllocError, Global};
use std::time::Duration;
use tui_textarea::{AtomicRange, Buffer, Input, Key, Rect, TextArea, WrapMode};

const SCREEN: Rect = Rect {
    x: 0,
    y: 0,
    width: 12,
    height: 3,
};

/// What a prompt sends.
pub fn prompt(alloc: Global) -> Result<Vec<String>, AllocError> {
    let mut prompt = LinePrompt::new(alloc)?;
    let sent = sent_by(&mut prompt, alloc);
    drop(prompt);
    sent
}

fn sent_by(prompt: &mut LinePrompt, alloc: Global) -> Result<Vec<String>, AllocError> {
    let mut keys = Vec::new(alloc);
    for character in "one\rtwo\r\rthreee\x08\r".chars() {
        keys.push(match character {
            '\r' => Key::Enter,
            '\x08' => Key::Backspace,
            _ => Key::Char(character),
        })?;
    }
    let mut texts = Vec::new(alloc);
    send_all(prompt, &keys, &mut texts)?;
    Ok(texts)
}

/// What is in a field after keys and a paste with line breaks.
pub fn one_line(alloc: Global) -> Result<String, AllocError> {
    let mut field = Field::new(alloc)?;
    let text = typed_into(&mut field);
    drop(field);
    text
}

fn typed_into(field: &mut Field) -> Result<String, AllocError> {
    for character in "a\nb\rc".chars() {
        field.take(&Input::from(character))?;
    }
    field.take(&Input::from(Key::Enter))?;
    field.paste(" d\r\ne")?;
    field.text()
}

/// A screen with a field into which a password is typed.
pub fn password(alloc: Global, password: &str) -> Result<Buffer, AllocError> {
    let mut buffer = Buffer::empty(alloc, SCREEN)?;
    let mut field = PasswordField::new(alloc)?;
    let drawn = hidden(&mut field, password, &mut buffer);
    drop(field);
    drawn.map(|()| buffer)
}

fn hidden(
    field: &mut PasswordField,
    password: &str,
    buffer: &mut Buffer,
) -> Result<(), AllocError> {
    for character in password.chars() {
        field.take(Input::from(character))?;
    }
    field.draw(SCREEN, buffer)
}

/// The names that a note mentions, after keys that move one of them and remove another.
pub fn mentions(alloc: Global) -> Result<Vec<String>, AllocError> {
    let mut note = Note::new(alloc, "Ada, Alan, Grace")?;
    let names = mentioned(&mut note);
    drop(note);
    names
}

fn mentioned(note: &mut Note) -> Result<Vec<String>, AllocError> {
    for (start_col, end_col) in [(11, 16), (0, 3), (5, 9)] {
        note.mark(AtomicRange {
            row: 0,
            start_col,
            end_col,
        })?;
    }
    for key in [Key::Char('>'), Key::End, Key::Backspace] {
        note.take(Input::from(key))?;
    }
    note.names()
}

/// Whether a text gets back to its last save, and the text then.
pub fn save(alloc: Global) -> Result<(bool, String), AllocError> {
    let mut text = SavedText::new(alloc, "saved")?;
    let reverted = reverted(&mut text);
    drop(text);
    reverted
}

fn reverted(text: &mut SavedText) -> Result<(bool, String), AllocError> {
    for character in "12".chars() {
        text.take(Input::from(character))?;
    }
    text.save()?;
    for character in "34".chars() {
        text.take(Input::from(character))?;
    }
    let reached = text.revert()?;
    Ok((reached, text.text()?))
}

/// A screen with two text areas.
pub fn side_by_side(alloc: Global) -> Result<Buffer, AllocError> {
    let mut buffer = Buffer::empty(alloc, SCREEN)?;
    let mut left = TextArea::from_text(alloc, "the left one, which is long")?;
    let drawn = left_and_right(&mut left, &mut buffer);
    drop(left);
    drawn.map(|()| buffer)
}

fn left_and_right(left: &mut TextArea<'_>, buffer: &mut Buffer) -> Result<(), AllocError> {
    let mut right = TextArea::from_text(left.allocator(), "right\nalso")?;
    let drawn = draw_both(left, &mut right, SCREEN, buffer);
    drop(right);
    drawn.map(|_| ())
}

/// A screen with a text at its bottom.
pub fn height(alloc: Global) -> Result<Buffer, AllocError> {
    let mut buffer = Buffer::empty(alloc, SCREEN)?;
    let mut text = TextArea::from_text(alloc, "as high as it is")?;
    let drawn = wrapped(&mut text, &mut buffer);
    drop(text);
    drawn.map(|()| buffer)
}

fn wrapped(text: &mut TextArea<'_>, buffer: &mut Buffer) -> Result<(), AllocError> {
    text.set_wrap_mode(WrapMode::Word)?;
    draw_at_bottom(text, SCREEN, buffer)?;
    Ok(())
}

/// A screen with a log, after some keys.
pub fn log_view(alloc: Global) -> Result<Buffer, AllocError> {
    let mut buffer = Buffer::empty(alloc, SCREEN)?;
    let mut view = LogView::new(alloc, "1\n2\n3\n4\n5\n6\n")?;
    let drawn = scrolled(&mut view, &mut buffer);
    drop(view);
    drawn.map(|()| buffer)
}

fn scrolled(view: &mut LogView, buffer: &mut Buffer) -> Result<(), AllocError> {
    view.draw(SCREEN, buffer)?;
    for key in [
        Key::PageDown,
        Key::Down,
        Key::Up,
        Key::Delete,
        Key::Char('x'),
    ] {
        view.take(key);
    }
    view.draw(SCREEN, buffer)
}

/// The matches of a pattern.
pub fn matches(alloc: Global) -> Result<Vec<(usize, usize)>> {
    let mut area = TextArea::from_text(alloc, "a sea, a seal\nseaside")?;
    let places = found(&mut area);
    drop(area);
    places
}

fn found(area: &mut TextArea<'_>) -> Result<Vec<(usize, usize)>> {
    area.set_search_pattern("sea")?;
    Ok(all_matches(area)?)
}

/// A text that was typed, and the text of a replay.
pub fn recorder(alloc: Global) -> Result<(String, String), AllocError> {
    let mut area = TextArea::from_text(alloc, "start")?;
    let both = replayed(alloc, &mut area);
    drop(area);
    both
}

fn replayed(alloc: Global, area: &mut TextArea<'static>) -> Result<(String, String), AllocError> {
    let mut copy = area.clone()?;
    let mut recorder = Recorder::new(alloc);
    let both = recorded(&mut recorder, area, &mut copy);
    drop(copy);
    both
}

fn recorded(
    recorder: &mut Recorder,
    area: &mut TextArea<'static>,
    copy: &mut TextArea<'static>,
) -> Result<(String, String), AllocError> {
    for (index, character) in "abc de".chars().enumerate() {
        let now = Duration::from_millis(400 * index as u64);
        recorder.take(area, Input::from(character), now)?;
    }
    recorder.take(area, Input::from('u').ctrl(), Duration::from_secs(9))?;
    recorder.replay(copy)?;
    Ok((area.text()?, copy.text()?))
}
