//! The arguments of the program.

ghost use Rattle.std.specs.Prelude.{◌≡◌};
ghost use Rattle.textarea_editor.specs.Arguments.{AreArguments, IsNamed, IsOption, IsReadOn, IsWord, position_word};
ghost use Rattle.textarea_editor.specs.Positions.{IsPosition, place_of_numbers};

use crate::line_number::{line_number, row_of_line};

/// What the arguments `[--modal] [--no-final-newline] [--no-indent] [--restore] [--unnamed]
/// [+LINE[,COLUMN]] [--] [FILE]` ask for.
#[derive(Clone, Copy, Debug, PartialEq, Eq)]
pub struct Arguments<'a> {
    /// Whether the keys are those of the modal editor.
    pub is_modal: bool,
    /// Whether the last line of a new file gets a line end when it is saved.
    pub closes_last: bool,
    /// Whether Enter in the text keeps the indent of its line.
    pub keeps_indent: bool,
    /// Whether a journal of the file is recovered without a question.
    pub restores: bool,
    /// Whether the file is only read, and its text has no name.
    pub is_unnamed: bool,
    /// The row and column of the cursor, counted from 0, if they are given.
    pub position: Option<(usize, usize)>,
    /// The name of the file, if there is one.
    pub name: Option<&'a str>,
}

// What a word asks for.
#[derive(Clone, Copy, Debug, PartialEq, Eq)]
enum Word {
    // The keys of the modal editor.
    Modal,
    // A new file's last line gets no line end.
    NoFinalNewline,
    // Enter keeps no indent.
    NoIndent,
    // A journal is recovered without a question.
    Restore,
    // The text has no name.
    Unnamed,
    // A position in the text.
    Position((usize, usize)),
    // The next word is a name.
    End,
    // It is a name.
    Name,
    // An option that doesn't exist.
    Unknown,
}

impl<'a> Arguments<'a> {
    /// Reads the arguments, or returns `None` if they are others. Options come first; after `--` a
    /// name may begin with `-` or `+`.
    pub fn read(words: &'a [String]) -> Option<Arguments<'a>>
        ensures { AreArguments words.now result }
    {
        read_on(
            Arguments {
                is_modal: false,
                closes_last: true,
                keeps_indent: true,
                restores: false,
                is_unnamed: false,
                position: None,
                name: None,
            },
            words,
        )
    }
}

// Reads further arguments, after those that are read.
fn read_on<'a>(read: Arguments<'a>, words: &'a [String]) -> Option<Arguments<'a>>
    ensures { IsReadOn read.entry words.now result }
{
    let Some((word, rest)) = words.split_first() else {
        return Some(read);
    };
    match word_of(word.as_str()) {
        Word::Modal => {
            read_on(
                Arguments {
                    is_modal: true,
                    ..read
                },
                rest,
            )
        }
        Word::NoFinalNewline => {
            read_on(
                Arguments {
                    closes_last: false,
                    ..read
                },
                rest,
            )
        }
        Word::NoIndent => {
            read_on(
                Arguments {
                    keeps_indent: false,
                    ..read
                },
                rest,
            )
        }
        Word::Restore => {
            read_on(
                Arguments {
                    restores: true,
                    ..read
                },
                rest,
            )
        }
        Word::Unnamed => {
            read_on(
                Arguments {
                    is_unnamed: true,
                    ..read
                },
                rest,
            )
        }
        Word::Position(position) => {
            read_on(
                Arguments {
                    position: Some(position),
                    ..read
                },
                rest,
            )
        }
        Word::End => named(read, rest),
        Word::Name => named(read, words),
        Word::Unknown => None,
    }
}

// Reads the arguments after the options.
fn named<'a>(read: Arguments<'a>, names: &'a [String]) -> Option<Arguments<'a>>
    ensures { IsNamed read.entry names.now result }
{
    match names {
        [] => Some(read),
        [name] => Some(Arguments {
            name: Some(name.as_str()),
            ..read
        }),
        _ => None,
    }
}

// Returns what a word asks for.
fn word_of(word: &str) -> Word
    ensures { IsWord word.now result }
{
    match word.as_bytes().first() {
        Some(b'-') => option_of(word),
        Some(b'+') => position_word(position_of(word)),
        _ => Word::Name,
    }
}

// Returns which option a word that begins with `-` is.
fn option_of(word: &str) -> Word
    ensures { IsOption word.now result }
{
    if word == "--modal" {
        return Word::Modal;
    }
    if word == "--no-final-newline" {
        return Word::NoFinalNewline;
    }
    if word == "--no-indent" {
        return Word::NoIndent;
    }
    if word == "--restore" {
        return Word::Restore;
    }
    if word == "--unnamed" {
        return Word::Unnamed;
    }
    if word == "--" {
        return Word::End;
    }
    Word::Unknown
}

fn position_word(position: Option<(usize, usize)>) -> Word
    ensures { result ≡ position_word position }
{
    match position {
        Some(position) => Word::Position(position),
        None => Word::Unknown,
    }
}

// Returns the position that `+LINE` or `+LINE,COLUMN` means, counted from 0, or none if it is
// another text.
fn position_of(word: &str) -> Option<(usize, usize)>
    ensures { IsPosition word.now result }
{
    match word.split_once(",") {
        None => place(line_number(word), Some(1)),
        Some((line, column)) => {
            let in_text = line_number(line);
            let in_line = line_number(column);
            place(in_text, in_line)
        }
    }
}

// Returns the place of a line and a column, both counted from 1.
fn place(line: Option<usize>, column: Option<usize>) -> Option<(usize, usize)>
    ensures { result ≡ place_of_numbers line column }
{
    match (row_of_line(line), row_of_line(column)) {
        (Some(row), Some(column)) => Some((row, column)),
        _ => None,
    }
}
