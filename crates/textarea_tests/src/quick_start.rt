// The example program of the README, with the results in its comments.
use crate::trial::{Trial, succeeds};
use std::alloc::AllocError;
use std::test::Fail;
use tui_textarea::{CursorMove, Input, Key, TextArea, WrapMode};

#[test]
fn quick_start(rt: HostRuntime) -> Result<(), Fail> {
    assert!(rt; succeeds(rt.alloc(), Trial::QuickStart)?);
    Ok(())
}

/// Returns whether each call has the result and leaves the state that the README states.
pub fn is_as_described(area: &mut TextArea<'_>) -> Result<bool, AllocError> {
    area.insert_str("one two\nthree")?;
    let is_edited = is_removed_and_back(area)? && is_cut_out(area)?;
    Ok(is_edited && is_measured_and_pasted(area)?)
}

fn is_removed_and_back(area: &mut TextArea<'_>) -> Result<bool, AllocError> {
    let is_removed = area.delete_word()? && is_yanked(area, "three")?;
    let is_back = area.undo()? && area.cursor() == (1, 5);
    Ok(is_removed && is_back)
}

fn is_cut_out(area: &mut TextArea<'_>) -> Result<bool, AllocError> {
    area.move_cursor(CursorMove::WordBack);
    area.start_selection();
    area.move_cursor(CursorMove::End);
    Ok(area.cut()? && is_yanked(area, "three")?)
}

fn is_yanked(area: &TextArea<'_>, wanted: &str) -> Result<bool, AllocError> {
    let yanked = area.yank_text()?;
    Ok(yanked.as_str() == wanted)
}

fn is_measured_and_pasted(area: &mut TextArea<'_>) -> Result<bool, AllocError> {
    area.set_wrap_mode(WrapMode::Word)?;
    let is_measured = area.measure(5)?.content_rows == 3;
    let ctrl_y = Input {
        key: Key::Char('y'),
        ctrl: true,
        ..Input::default()
    };
    let is_pasted = area.input(ctrl_y)? && area.cursor() == (1, 5);
    Ok(is_measured && is_pasted)
}
