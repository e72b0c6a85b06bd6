//! Makes the calls of a script in one run.
use textarea_run::RunEnd;
use textarea_run::run::run;
use textarea_script_syntax::commands::{Command, calls, read};
use textarea_test_support::end::EndReason;
use tui_textarea::{Buffer, Rect, TextArea};

/// Makes the calls of a script in one run, which draws into the buffer.
pub fn run_script(
    area: &mut TextArea<'_>,
    script: &str,
    buffer: &mut Buffer,
) -> Result<RunEnd, EndReason> {
    let alloc = area.allocator();
    let commands = read(alloc, script.as_bytes())?;
    run_commands(area, commands.as_slice(), buffer)
}

/// Makes the calls of a script in one run, which draws nowhere.
pub fn run_silently(area: &mut TextArea<'_>, script: &str) -> Result<RunEnd, EndReason> {
    let alloc = area.allocator();
    let mut nowhere = Buffer::empty(alloc, Rect::default())?;
    let end = run_script(area, script, &mut nowhere);
    drop(nowhere);
    end
}

// Makes the calls, which borrow from the commands.
fn run_commands(
    area: &mut TextArea<'_>,
    commands: &[Command],
    buffer: &mut Buffer,
) -> Result<RunEnd, EndReason> {
    let alloc = area.allocator();
    let calls = calls(alloc, commands)?;
    Ok(run(area, calls.as_slice(), buffer))
}
