// Edits a file in a terminal that `bin/taedit` prepares:
// taedit [--modal] [--no-final-newline] [--no-indent] [--restore] [+LINE[,COLUMN]] [--] [FILE]
#![tactic(auto)]

use anyhow::{Result, bail};
use std::env;
use std::io::{Read, Write};
use std::time::{Duration, Instant};
use textarea_editor::message::{Message, Trouble};
use textarea_editor::screen::Colors;
use textarea_editor::terminal_colors::terminal_colors;
use textarea_editor::{Arguments, DiskFile, Editor, Effect, Event, Screen, Storage};
use textarea_host::{SizeFile, Watch, size_in};

// The alternate screen, reports of the mouse with its buttons down, in SGR's form, and bracketed
// paste. `bin/taedit` restores the terminal.
const ENTER: &[u8] = b"\x1b[?1049h\x1b[?1002h\x1b[?1006h\x1b[?2004h";

fn main(rt: HostRuntime) -> Result<()> {
    let words: Vec<String> = env::args(&rt)?.skip(1).collect(rt.alloc())?;
    match Arguments::read(words.as_slice()) {
        Some(arguments) => edit(&rt, arguments),
        None => bail!(
            "usage: taedit [--modal] [--no-final-newline] [--no-indent] [--restore] [+LINE[,COLUMN]] [--] [FILE]"
        ),
    }
}

// Edits the file of the arguments. A function that owns an editor, a screen or a storage lends it to
// another one, and then drops it: so its proof is short.
fn edit(rt: &HostRuntime, arguments: Arguments<'_>) -> Result<()> {
    let (columns, rows) = (size_in(rt, "COLUMNS", 80), size_in(rt, "LINES", 24));
    let mut editor = Editor::new(rt.alloc(), columns, rows, arguments.is_modal)?;
    editor.set_closes_last(arguments.closes_last);
    editor.set_keeps_indent(arguments.keeps_indent);
    let outcome = edit_with(rt, &mut editor, arguments);
    drop(editor);
    outcome
}

// Whether the terminal is the Linux console.
fn is_console(rt: &HostRuntime) -> bool {
    match env::var(rt, "TERM") {
        Ok(name) => name.as_str() == "linux",
        Err(_) => false,
    }
}

fn edit_with(rt: &HostRuntime, editor: &mut Editor, arguments: Arguments<'_>) -> Result<()> {
    let mut storage = Storage::default();
    let outcome = edit_stored(rt, editor, arguments, &mut storage);
    if outcome.is_err() {
        storage.write(rt, editor);
    }
    drop(storage);
    outcome
}

// Edits the file of the arguments, which is kept in this storage.
fn edit_stored(
    rt: &HostRuntime,
    editor: &mut Editor,
    arguments: Arguments<'_>,
    storage: &mut Storage,
) -> Result<()> {
    if let Some(name) = arguments.name {
        if arguments.is_unnamed {
            open_unnamed(rt, editor, name)?;
        } else {
            open(rt, editor, storage, name)?;
        }
    }
    if arguments.restores {
        storage.restore(editor)?;
    }
    if let Some(position) = arguments.position {
        editor.go_to(position)?;
    }
    let mut screen = Screen::new(rt.alloc(), editor.screen_area())?;
    screen.set_console(is_console(rt));
    screen.set_colors(colors(rt));
    let outcome = run(rt, editor, &mut screen, storage);
    drop(screen);
    outcome
}

// The colours that the terminal has.
fn colors(rt: &HostRuntime) -> Colors {
    let no_color = variable(rt, "NO_COLOR");
    let colorterm = variable(rt, "COLORTERM");
    let term = variable(rt, "TERM");
    terminal_colors(no_color.as_str(), colorterm.as_str(), term.as_str())
}

// The value of a variable, empty if it isn't set.
fn variable(rt: &HostRuntime, name: &str) -> String {
    env::var(rt, name).unwrap_or(String::new(rt.alloc()))
}

// Opens a file, before the program takes the screen. A text that can't be opened ends the program.
fn open(rt: &HostRuntime, editor: &mut Editor, storage: &mut Storage, name: &str) -> Result<()> {
    match storage.open(rt, editor, name)? {
        None => Ok(()),
        Some(trouble) => bail!("{name}: not opened: {}", trouble.text()),
    }
}

// Gives the editor the text of a file, which has no name and counts as changed, or shows a file that
// isn't UTF-8.
fn open_unnamed(rt: &HostRuntime, editor: &mut Editor, name: &str) -> Result<()> {
    let mut file = DiskFile::default();
    let trouble = match file.read(rt, name) {
        Ok(Some(text)) => return Ok(editor.recover(text)?),
        Ok(None) => return Ok(()),
        Err(Trouble::NotText) => match file.viewed(rt, name) {
            Ok(text) => return Ok(editor.view(text)?),
            Err(trouble) => trouble,
        },
        Err(trouble) => trouble,
    };
    bail!("standard input: not opened: {}", trouble.text())
}

// Takes what the terminal sends, until the editor quits or the terminal is gone.
fn run(
    rt: &HostRuntime,
    editor: &mut Editor,
    screen: &mut Screen,
    storage: &mut Storage,
) -> Result<()> {
    let begin = Instant::now(rt)?;
    let mut sizes = SizeFile::new(rt);
    let mut watch = Watch::default();
    write(rt, ENTER)?;
    show(rt, editor, screen)?;
    for _ in 0..u64::MAX {
        let mut bytes = [0u8; 4096];
        let asked = Instant::now(rt)?;
        let count = rt.stdin().read(&mut bytes)?;
        let now = Instant::now(rt)?;
        let waited = now.duration_since(asked);
        let time = now.duration_since(begin);
        if count == 0 {
            take_size(rt, editor, screen, time, &mut sizes)?;
        }
        if watch.is_gone(count, waited) {
            storage.write(rt, editor);
            break;
        }
        if !take(rt, editor, screen, storage, time, waited, &bytes[..count])? {
            storage.end(rt);
            break;
        }
        if storage.is_due(time) {
            storage.write(rt, editor);
            show(rt, editor, screen)?;
        }
    }
    Ok(())
}

// Takes a new size of the terminal, and draws all again.
fn take_size(
    rt: &HostRuntime,
    editor: &mut Editor,
    screen: &mut Screen,
    time: Duration,
    sizes: &mut SizeFile,
) -> Result<()> {
    if let Some((columns, rows)) = sizes.news(rt) {
        let _ = editor.step(time, &Event::Size { columns, rows });
        screen.forget();
        show(rt, editor, screen)?;
    }
    Ok(())
}

// Takes bytes of the terminal, or that none came in this time, and returns whether the program goes
// on.
fn take(
    rt: &HostRuntime,
    editor: &mut Editor,
    screen: &mut Screen,
    storage: &mut Storage,
    time: Duration,
    waited: Duration,
    bytes: &[u8],
) -> Result<bool> {
    let Ok(events) = screen.read(bytes, waited) else {
        editor.show_message(Message::Memory);
        show(rt, editor, screen)?;
        return Ok(true);
    };
    for event in &events {
        let effect = editor.step(time, event);
        if !carry_out(rt, editor, screen, storage, effect)? {
            return Ok(false);
        }
    }
    if !events.is_empty() {
        editor.remind();
        show(rt, editor, screen)?;
        storage.note(rt, editor, time);
    }
    Ok(true)
}

// Does what a step of the editor asks for, and returns whether the program goes on.
fn carry_out(
    rt: &HostRuntime,
    editor: &mut Editor,
    screen: &Screen,
    storage: &mut Storage,
    effect: Effect,
) -> Result<bool> {
    match effect {
        Effect::Nothing => Ok(true),
        Effect::Quit => Ok(false),
        Effect::Recover => {
            if storage.recover(editor).is_err() {
                editor.show_message(Message::Memory);
            }
            Ok(true)
        }
        Effect::Discard => {
            storage.discard(rt);
            Ok(true)
        }
        Effect::Copy(text) => copy(rt, screen, text.as_str()),
        Effect::Save(saving) => {
            let end = storage.save(rt, &saving);
            Ok(editor.saved(saving, end) != Effect::Quit)
        }
    }
}

// Gives a text to the terminal's clipboard. If memory runs out, the clipboard stays as it is.
fn copy(rt: &HostRuntime, screen: &Screen, text: &str) -> Result<bool> {
    let mut out = Vec::new(rt.alloc());
    let _ = screen.copy(text, &mut out);
    write(rt, out.as_slice())?;
    Ok(true)
}

// Shows the editor's frame. If memory runs out, the terminal shows the frame before.
fn show(rt: &HostRuntime, editor: &mut Editor, screen: &mut Screen) -> Result<()> {
    let mut out = Vec::new(rt.alloc());
    let _ = screen.show(editor, &mut out);
    write(rt, out.as_slice())
}

// Writes bytes to the terminal at once.
fn write(rt: &HostRuntime, bytes: &[u8]) -> Result<()> {
    let mut terminal = rt.stdout();
    terminal.write_all(bytes)?;
    terminal.flush()?;
    Ok(())
}
