// Reads a script: each line is a command for one call.
ghost use Rattle.std.specs.Prelude.{◌≡◌, ◌+◌, All, IfOk, IfErr, IfSome, map, option_and_then, option_copied, option_map, string_bytes, vec_len};
ghost use Rattle.textarea_script_syntax.specs.Arguments.{IsReadAs};
ghost use Rattle.textarea_calls.specs.Possible.{CanBeMade};
ghost use Rattle.textarea_script_syntax.specs.Commands.{line_meaning, line_numbers, command_meaning, plain_meaning, replace_range_meaning, set_lines_meaning, search_text_meaning};
ghost use Rattle.textarea_script_syntax.specs.Inputs.{input_named};
ghost use Rattle.textarea_script_syntax.specs.Meaning.{argument_text};
ghost use Rattle.textarea_script_syntax.specs.Ranges.{ranges_after_space};
ghost use Rattle.textarea_script_syntax.specs.Script.{lines_of_script, filled_lines, meaning_of, meaning_of_line, meanings_of_lines, AreCallsOf, IsAtLine, IsCallOf, IsCommandOf, IsCallReady, IsReady-prop, NamesLine};
ghost use Rattle.textarea_script_syntax.specs.declared.commands.CommandContent.TheVariants.{Plain};

use crate::arguments::{
    Unparsed, area, input_named, number, page_named, ranges, size, split_first, truth, two_places,
    two_short_numbers, unescape, unescaped_lines,
};
use crate::call_commands::{call_with_arguments, call_without_arguments};
use std::alloc::{AllocError, AllocFailed, Global};
use std::str::from_utf8;
use std::time::Duration;
use textarea_calls::Call;
use textarea_data::cursor::CursorMove;
use textarea_data::input::Input;
use textarea_data::range::AtomicRange;
use textarea_screen::screen::{Position, Style};

/// Why a script could not be read.
#[derive(Clone, Copy, Debug, PartialEq, Eq)]
pub enum ReadError {
    /// The number, counted from 1, of a line that is no command or isn't UTF-8.
    Line(usize),
    /// Out of memory.
    Memory,
}

impl<T: Drop> From<AllocFailed<T>> for ReadError {
    ghost use Rattle.std.specs.Prelude.{◌≡◌};
    ghost use Rattle.textarea_script_syntax.specs.declared.commands.ReadError.TheVariants.{Memory};

    ghost from_gives = { λ _ error. error ≡ Memory };

    fn from(_error: AllocFailed<T>) -> ReadError {
        ReadError::Memory
    }
}

/// A command that was read. It owns its texts, and its call can be made.
#[derive(Drop)]
pub struct Command {
    content: CommandContent,
    ghost ready: { IsCallReady content } by { IsReady-prop content },
}

#[derive(Drop)]
enum CommandContent {
    // The call itself, which borrows no text.
    Plain(Call<'static>),
    InsertStr(String),
    InsertPasted(String),
    SetYankText(String),
    TrySetAtomicRanges(Vec<AtomicRange>),
    SetSearchPattern(String),
    SetSearchText {
        text: String,
        ignore_case: bool,
        whole_word: bool,
    },
    SetLines {
        lines: Vec<String>,
        cursor: (usize, usize),
    },
    ReplaceRange {
        from: (usize, usize),
        to: (usize, usize),
        text: String,
    },
    ReplaceMatch(String),
    ReplaceAll(String),
    Input(Input),
}

impl Command {
    /// Returns the call of the command. It borrows the texts of the command.
    pub fn call(&self) -> Call<'_>
        ensures ready { CanBeMade result }
        ensures is { IsCallOf self.now.content result }
    {
        match &self.content {
            CommandContent::Plain(call) => *call,
            CommandContent::InsertStr(text) => Call::InsertStr(text.as_str()),
            CommandContent::InsertPasted(text) => Call::InsertPasted(text.as_str()),
            CommandContent::SetYankText(text) => Call::SetYankText(text.as_str()),
            CommandContent::SetSearchPattern(text) => Call::SetSearchPattern(text.as_str()),
            CommandContent::SetSearchText {
                text,
                ignore_case,
                whole_word,
            } => Call::SetSearchText {
                text: text.as_str(),
                ignore_case: *ignore_case,
                whole_word: *whole_word,
            },
            CommandContent::TrySetAtomicRanges(ranges) => Call::TrySetAtomicRanges(
                ranges.as_slice(),
            ),
            CommandContent::SetLines { lines, cursor } => Call::SetLines {
                lines: lines.as_slice(),
                cursor: *cursor,
            },
            CommandContent::ReplaceRange { from, to, text } => Call::ReplaceRange {
                from: *from,
                to: *to,
                text: text.as_str(),
            },
            CommandContent::ReplaceMatch(text) => Call::ReplaceMatch(text.as_str()),
            CommandContent::ReplaceAll(text) => Call::ReplaceAll(text.as_str()),
            CommandContent::Input(input) => Call::Input(input),
        }
    }
}

/// Reads a script, one command per line. Each line but the last ends in a line feed. Empty lines
/// are skipped. The error names the first line that is no command or isn't UTF-8.
pub fn read(alloc: Global, script: &[u8]) -> Result<Vec<Command>, ReadError>
    ensures ok { IfOk result
        (λ commands. vec_len commands ≡ filled_lines (lines_of_script script.now)) }
    ensures means { IfOk result (λ commands.
        map (λ command. Some (meaning_of command.content)) commands.items
        ≡ meanings_of_lines (lines_of_script script.now)) }
    ensures err { IfErr result (NamesLine script.now) }
{
    let mut commands = Vec::new(alloc);
    for (index, line) in script.split(|byte| *byte == b'\n').enumerate() {
        if line.is_empty() {
            continue;
        }
        commands.push(read_line(alloc, line, index + 1)?)?;
    }
    Ok(commands)
}

/// Returns the calls of the commands, in their order.
pub fn calls(alloc: Global, commands: &[Command]) -> Result<Vec<Call<'_>>, AllocError>
    ensures ready { IfOk result (λ calls. All CanBeMade calls.items) }
    ensures each { IfOk result (λ calls.
        AreCallsOf (map (λ command. command.content) commands.now) calls.items) }
{
    let mut calls = Vec::with_capacity(alloc, commands.len())?;
    for command in commands {
        calls.push(command.call())?;
    }
    Ok(calls)
}

// Reads the line of this number.
fn read_line(alloc: Global, line: &[u8], number: usize) -> Result<Command, ReadError>
    ensures line { IfErr result (IsAtLine number) }
    ensures means { IsCommandOf (λ command. command.content) (meaning_of_line line.now) result }
{
    let Ok(text) = from_utf8(line) else {
        return Err(ReadError::Line(number));
    };
    match content_of(alloc, text) {
        Ok(content) => Ok(Command { content }),
        Err(Unparsed::NoCommand) => Err(ReadError::Line(number)),
        Err(Unparsed::Memory) => Err(ReadError::Memory),
    }
}

// Reads the content of a line: a call's name and, after one space, its arguments.
fn content_of(alloc: Global, line: &str) -> Result<CommandContent, Unparsed>
    ensures ready { IfOk result IsCallReady }
    ensures means { IsReadAs meaning_of (line_meaning line.now) result }
{
    match split_first(line) {
        Some((name, arguments)) => content_named(alloc, name, Some(arguments)),
        None => content_named(alloc, line, None),
    }
}

// Reads the content of a command from a call's name and its arguments, if there are any.
#[tactic(auto, unfolding(crate::specs::Commands::command_meaning, crate::specs::Commands::plain_meaning))]
fn content_named(
    alloc: Global,
    name: &str,
    arguments: Option<&str>,
) -> Result<CommandContent, Unparsed>
    ensures ready { IfOk result IsCallReady }
    ensures means { IsReadAs meaning_of (command_meaning name.now (option_copied arguments.entry))
        result }
{
    match name {
        "insert_str" => Ok(CommandContent::InsertStr(text(alloc, arguments)?)),
        "insert_pasted" => Ok(CommandContent::InsertPasted(text(alloc, arguments)?)),
        "set_yank_text" => Ok(CommandContent::SetYankText(text(alloc, arguments)?)),
        "set_search_pattern" => Ok(CommandContent::SetSearchPattern(text(alloc, arguments)?)),
        "set_search_text" => search_text(alloc, arguments),
        "ranges" => Ok(CommandContent::TrySetAtomicRanges(some_ranges(alloc, arguments)?)),
        "set_lines" => set_lines(alloc, arguments),
        "replace_range" => replace_range(alloc, arguments),
        "replace_match" => Ok(CommandContent::ReplaceMatch(text(alloc, arguments)?)),
        "replace_all" => Ok(CommandContent::ReplaceAll(text(alloc, arguments)?)),
        "input" => Ok(CommandContent::Input(input(arguments).ok_or(Unparsed::NoCommand)?)),
        _ => Ok(CommandContent::Plain(plain(name, arguments).ok_or(Unparsed::NoCommand)?)),
    }
}

// The text that the arguments write with escapes. It is empty where there are no arguments.
fn text(alloc: Global, arguments: Option<&str>) -> Result<String, Unparsed>
    ensures { IsReadAs string_bytes (argument_text (option_copied arguments.entry)) result }
{
    unescape(alloc, arguments.unwrap_or(""))
}

// A `set_search_text` with these arguments: two truth values, and a text, which may be missing.
fn search_text(alloc: Global, arguments: Option<&str>) -> Result<CommandContent, Unparsed>
    ensures ready { IfOk result IsCallReady }
    ensures means { IsReadAs meaning_of (search_text_meaning (option_copied arguments.entry))
        result }
{
    let (ignore_case, rest) = split_first(arguments.unwrap_or("")).ok_or(Unparsed::NoCommand)?;
    let (whole_word, text) = split_first(rest).unwrap_or((rest, ""));
    let ignore_case = truth(ignore_case).ok_or(Unparsed::NoCommand)?;
    let whole_word = truth(whole_word).ok_or(Unparsed::NoCommand)?;
    Ok(CommandContent::SetSearchText {
        text: unescape(alloc, text)?,
        ignore_case,
        whole_word,
    })
}

// The ranges that the arguments name. There are none where there are no arguments.
fn some_ranges(alloc: Global, arguments: Option<&str>) -> Result<Vec<AtomicRange>, Unparsed>
    ensures { IsReadAs (λ read. read.items) (ranges_after_space (option_copied arguments.entry))
        result }
{
    match arguments {
        Some(arguments) => ranges(alloc, arguments),
        None => Ok(Vec::new(alloc)),
    }
}

// The input that the arguments name.
fn input(arguments: Option<&str>) -> Option<Input>
    ensures { result ≡ option_and_then input_named (option_copied arguments.entry) }
{
    input_named(arguments?)
}

// A `set_lines` with these arguments: a row, a column, and a text, which may be missing.
fn set_lines(alloc: Global, arguments: Option<&str>) -> Result<CommandContent, Unparsed>
    ensures ready { IfOk result IsCallReady }
    ensures means { IsReadAs meaning_of (set_lines_meaning (option_copied arguments.entry)) result }
{
    let (row, rest) = split_first(arguments.unwrap_or("")).ok_or(Unparsed::NoCommand)?;
    let (column, text) = split_first(rest).unwrap_or((rest, ""));
    let row = size(row).ok_or(Unparsed::NoCommand)?;
    let column = size(column).ok_or(Unparsed::NoCommand)?;
    Ok(CommandContent::SetLines {
        lines: unescaped_lines(alloc, text)?,
        cursor: (row, column),
    })
}

// A `replace_range` with these arguments: two positions, each a row and a column, and a text, which
// may be missing.
fn replace_range(alloc: Global, arguments: Option<&str>) -> Result<CommandContent, Unparsed>
    ensures ready { IfOk result IsCallReady }
    ensures means { IsReadAs meaning_of (replace_range_meaning (option_copied arguments.entry))
        result }
{
    let (row, rest) = split_first(arguments.unwrap_or("")).ok_or(Unparsed::NoCommand)?;
    let (column, rest) = split_first(rest).ok_or(Unparsed::NoCommand)?;
    let (end_row, rest) = split_first(rest).ok_or(Unparsed::NoCommand)?;
    let (end_column, text) = split_first(rest).unwrap_or((rest, ""));
    let row = size(row).ok_or(Unparsed::NoCommand)?;
    let column = size(column).ok_or(Unparsed::NoCommand)?;
    let end_row = size(end_row).ok_or(Unparsed::NoCommand)?;
    let end_column = size(end_column).ok_or(Unparsed::NoCommand)?;
    Ok(CommandContent::ReplaceRange {
        from: (row, column),
        to: (end_row, end_column),
        text: unescape(alloc, text)?,
    })
}

// The call of this name and its arguments, if there are any. None of the arguments is a text.
fn plain(name: &str, arguments: Option<&str>) -> Option<Call<'static>>
    ensures ready { IfSome result CanBeMade }
    ensures means { option_map (λ call. meaning_of (Plain call)) result
        ≡ plain_meaning name.now (option_copied arguments.entry) }
{
    match arguments {
        Some(arguments) => call_with(name, arguments),
        None => call_without_arguments(name),
    }
}

// The call of this name and these arguments. None of the arguments is a text.
#[tactic(auto, unfolding(crate::specs::CallCommands::call_meaning, crate::specs::Commands::plain_meaning))]
fn call_with(name: &str, arguments: &str) -> Option<Call<'static>>
    ensures ready { IfSome result CanBeMade }
    ensures means { option_map (λ call. meaning_of (Plain call)) result
        ≡ plain_meaning name.now (Some arguments.now) }
{
    match name {
        "render" => Some(Call::Render(area(arguments)?)),
        "hit" => {
            let (x, y) = two_short_numbers(arguments)?;
            Some(Call::CursorAtPosition(Position { x, y }))
        }
        "jump" => {
            let (row, column) = two_short_numbers(arguments)?;
            Some(Call::Move(CursorMove::Jump(row, column)))
        }
        "text_range" => {
            let (from, to) = two_places(arguments)?;
            Some(Call::TextRange { from, to })
        }
        "page" => Some(Call::Scroll(page_named(arguments)?)),
        "line_numbers" => Some(line_numbers(truth(arguments)?)),
        "now" => Some(Call::SetNow(Duration::from_millis(number(arguments)?))),
        _ => call_with_arguments(name, arguments),
    }
}

// The call that shows line numbers in the empty style, or that removes them.
fn line_numbers(displayed: bool) -> Call<'static>
    ensures { result ≡ line_numbers displayed }
{
    if displayed {
        Call::SetLineNumberStyle(Style::new())
    } else {
        Call::RemoveLineNumber
    }
}
