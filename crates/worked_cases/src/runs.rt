//! Runs of keys of the modal editor with what sessions lack: Ctrl, Alt, search, drawing, yanked
//! text.
//!
//! Runs of keys are separated by `%`. Between two runs the text area is drawn into 20 columns and 4
//! rows. `^` holds Ctrl for the next key, and `~` Alt. The search pattern is `o`. At the end the
//! mode, the end of the last run, the text area and the yanked text are printed.
use std::alloc::{AllocError, Global};
use textarea_data::input::{Input, Key};
use textarea_modal::{Modal, ModalEnd};
use textarea_run::printing::Report;
use textarea_test_support::lines::keys_and_rest;
use textarea_test_support::stop::{Stop, compare};
use tui_textarea::{Buffer, Rect, TextArea};

/// Runs the keys of a case, and compares the printed end.
pub fn check(alloc: Global, case: &str) -> Result<(), Stop> {
    let (keys, wanted) = keys_and_rest(alloc, case)?;
    let found = end_of(alloc, keys.as_str())?;
    compare(found, wanted)
}

// The printed end of these runs. Separate functions own the buffer and the text area.
fn end_of(alloc: Global, keys: &str) -> Result<String, Stop> {
    let mut buffer = Buffer::empty(alloc, Rect::new(0, 0, 20, 4))?;
    let end = end_drawn_into(alloc, &mut buffer, keys);
    drop(buffer);
    end
}

fn end_drawn_into(alloc: Global, buffer: &mut Buffer, keys: &str) -> Result<String, Stop> {
    let mut area = TextArea::try_default(alloc)?;
    let end = end_in(alloc, &mut area, buffer, keys);
    drop(area);
    end
}

// The printed end of these runs in an empty text area.
fn end_in(
    alloc: Global,
    area: &mut TextArea<'_>,
    buffer: &mut Buffer,
    keys: &str,
) -> Result<String, Stop> {
    if area.set_search_pattern("o").is_err() {
        return Err(Stop::Memory);
    }
    let mut modal = Modal::new();
    let mut runs = keys.split('%');
    let mut end = run(alloc, &mut modal, area, runs.next().unwrap_or(""))?;
    for keys in runs {
        area.render(Rect::new(0, 0, 20, 4), buffer)?;
        end = run(alloc, &mut modal, area, keys)?;
    }
    Ok(end_text(alloc, &modal, end, area)?)
}

fn run(
    alloc: Global,
    modal: &mut Modal,
    area: &mut TextArea<'_>,
    keys: &str,
) -> Result<ModalEnd, AllocError> {
    let inputs = inputs_of(alloc, keys)?;
    Ok(modal.run(area, inputs.as_slice()))
}

fn end_text(
    alloc: Global,
    modal: &Modal,
    end: ModalEnd,
    area: &TextArea<'_>,
) -> Result<String, AllocError> {
    let ModalEnd { taken, stop } = end;
    let mode = modal.mode();
    let report = Report {
        answers: &[],
        area,
        screen: None,
    };
    let yanked = area.yank_text()?;
    format!(in alloc; "{mode:?}, {taken} used, {stop:?}\n{report}yanked {yanked:?}\n")
}

fn inputs_of(alloc: Global, keys: &str) -> Result<Vec<Input>, AllocError> {
    let mut inputs = Vec::new(alloc);
    let (mut ctrl, mut alt) = (false, false);
    for character in keys.chars() {
        match character {
            '^' => ctrl = true,
            '~' => alt = true,
            _ => {
                inputs.push(input_of(character, ctrl, alt))?;
                (ctrl, alt) = (false, false);
            }
        }
    }
    Ok(inputs)
}

fn input_of(character: char, ctrl: bool, alt: bool) -> Input {
    let key = match character {
        '\u{1b}' => Key::Esc,
        '\n' => Key::Enter,
        _ => Key::Char(character),
    };
    Input {
        key,
        ctrl,
        alt,
        shift: false,
    }
}
