//! A text in all settings and areas, after all calls, and at all tab lengths.
use crate::frames::asked::{borrows, calls_of, script_of};
use crate::frames::caret::has_tab;
use crate::frames::judge::FrameJudge;
use crate::frames::setting::Setting;
use crate::frames::tally::FrameTally;
use std::alloc::{AllocError, Global};
use textarea_calls::Call;
use textarea_script_syntax::commands::{Command, read};
use textarea_test_support::end::EndReason;
use textarea_test_support::words::Borrows;
use tui_textarea::{CursorMove, Rect, TextArea};

/// The number of frames in each area, each with the cursor at another position.
const FRAMES: usize = 4;

/// The area of the frames after calls.
const AFTER_CALLS: Rect = Rect {
    x: 1,
    y: 1,
    width: 11,
    height: 4,
};

/// Judges the text of a script, also after the calls of other lines, which are script commands or
/// test commands. `widest` is the width of the text's widest cluster except tabs.
pub fn tour(
    alloc: Global,
    lines: &str,
    widest: usize,
    asked: &str,
) -> Result<FrameTally, EndReason> {
    let mut judge = FrameJudge::new(alloc, widest)?;
    let judged = judge_lines(alloc, lines, asked, &mut judge);
    let tally = judge.tally();
    drop(judge);
    judged?;
    Ok(tally)
}

// Judges a text in all settings, also after the calls of lines.
fn judge_lines(
    alloc: Global,
    lines: &str,
    asked: &str,
    judge: &mut FrameJudge,
) -> Result<(), EndReason> {
    let borrows = borrows(alloc)?;
    let judged = judge_borrowed(alloc, lines, (asked, &borrows), judge);
    drop(borrows);
    judged
}

// The same, with the values that the calls borrow.
fn judge_borrowed(
    alloc: Global,
    lines: &str,
    (asked, borrows): (&str, &Borrows),
    judge: &mut FrameJudge,
) -> Result<(), EndReason> {
    let script = script_of(alloc, asked, borrows)?;
    let commands = read(alloc, script.as_bytes())?;
    judge_commands(alloc, lines, (asked, commands.as_slice(), borrows), judge)
}

// The same, with the script commands among the lines.
fn judge_commands(
    alloc: Global,
    lines: &str,
    (asked, commands, borrows): (&str, &[Command], &Borrows),
    judge: &mut FrameJudge,
) -> Result<(), EndReason> {
    let asked = calls_of(alloc, asked, commands, borrows)?;
    let judged = judge_settings(alloc, lines, asked.as_slice(), judge);
    drop(asked);
    judged
}

// Judges a text in all settings, also after these calls.
fn judge_settings(
    alloc: Global,
    lines: &str,
    asked: &[Call<'_>],
    judge: &mut FrameJudge,
) -> Result<(), EndReason> {
    for number in 0..Setting::COUNT {
        judge_text(alloc, lines, Setting::numbered(number), asked, judge)?;
    }
    Ok(())
}

// Judges the text of a script in one setting.
fn judge_text(
    alloc: Global,
    lines: &str,
    setting: Setting,
    asked: &[Call<'_>],
    judge: &mut FrameJudge,
) -> Result<(), EndReason> {
    let mut area = TextArea::try_default(alloc)?;
    let judged = judge_area(&mut area, lines, setting, asked, judge);
    drop(area);
    judged
}

// Writes the text of a script and a setting into an empty text area, and judges it.
fn judge_area(
    area: &mut TextArea<'_>,
    lines: &str,
    setting: Setting,
    asked: &[Call<'_>],
    judge: &mut FrameJudge,
) -> Result<(), EndReason> {
    write(judge, area, lines)?;
    setting.put(area)?;
    draw_areas(judge, area);
    draw_tabs(judge, area)?;
    make_calls(judge, area, asked);
    Ok(())
}

// Makes the calls of a script on a text area.
fn write(judge: &mut FrameJudge, area: &mut TextArea<'_>, script: &str) -> Result<(), EndReason> {
    let alloc = area.allocator();
    let commands = read(alloc, script.as_bytes())?;
    let written = write_commands(judge, area, commands.as_slice());
    drop(commands);
    Ok(written?)
}

fn write_commands(
    judge: &mut FrameJudge,
    area: &mut TextArea<'_>,
    commands: &[Command],
) -> Result<(), AllocError> {
    for command in commands {
        judge.write(area, command.call())?;
    }
    Ok(())
}

// Draws frames of each width and height, with the cursor at one position after another.
fn draw_areas(judge: &mut FrameJudge, area: &mut TextArea<'_>) {
    for width in 0..=12 {
        for height in 0..=4 {
            for _ in 0..FRAMES {
                judge.draw_frame(area, Rect::new(1, 1, width, height));
                go_on(area);
            }
        }
    }
}

// Moves the cursor one position forward, or from the text's end to its start.
fn go_on(area: &mut TextArea<'_>) {
    let place = area.cursor();
    area.move_cursor(CursorMove::Forward);
    if area.cursor() == place {
        area.move_cursor(CursorMove::Top);
        area.move_cursor(CursorMove::Head);
    }
}

// If the text has tabs, draws at each tab length a frame that a tab fits and a narrow one.
fn draw_tabs(judge: &mut FrameJudge, area: &mut TextArea<'_>) -> Result<(), AllocError> {
    if !has_tab(area) {
        return Ok(());
    }
    let before = area.tab_length();
    for length in 0..=255 {
        area.set_tab_length(length)?;
        judge.draw_frame(area, Rect::new(1, 1, u16::from(length) + 6, 3));
        judge.draw_frame(area, Rect::new(1, 1, 9, 4));
        go_on(area);
    }
    area.set_tab_length(before)
}

// Makes each of the calls, and draws a frame after it.
fn make_calls(judge: &mut FrameJudge, area: &mut TextArea<'_>, calls: &[Call<'_>]) {
    for call in calls {
        judge.make_call(area, *call);
        judge.draw_frame(area, AFTER_CALLS);
    }
}
