// Reads the arguments of commands: numbers, truth values, names, and texts with escapes.
ghost use Rattle.std.specs.Char.{is_ascii_digit, is_ascii_hexdigit};
ghost use Rattle.std.specs.List.{list_all};
ghost use Rattle.std.specs.Prelude.{◌≡◌, ◌<◌, ◌≤◌, ◌++◌, ◌∷◌, [], length, map, option_copied, option_map, string_bytes, vec_len, IfOk, IfSome, MatchOption, OnOk, Some};
ghost use Rattle.textarea_script_syntax.specs.Arguments.{IsReadAs, byte_number, cursor_unit_named, mode_named, move_named, number, number_or_none, page, split_first, scroll_amounts, short_number, sides, sides_of_area, signed_number, truth, two_numbers, two_places, two_short_numbers, change_unit_named};
ghost use Rattle.textarea_script_syntax.specs.FirstLine.{IsLinePushed};
ghost use Rattle.textarea_script_syntax.specs.Escapes.{HasNoBackslash, character, character_numbered, escape, first_character, in_front, numbered_escape, unescaped, unescaped_lines};
ghost use Rattle.textarea_script_syntax.specs.Inputs.{modifiers_named, input_named, key_without_arguments, key_named, key_with};
ghost use Rattle.textarea_script_syntax.specs.Ranges.{range, ranges, ranges_after_space};

use std::alloc::{AllocError, AllocFailed, Global};
use textarea_change::ChangeUnit;
use textarea_data::cursor::{CursorMove, CursorUnit};
use textarea_data::input::{Input, Key};
use textarea_data::range::AtomicRange;
use textarea_data::scroll::Scrolling;
use textarea_screen::screen::Rect;
use textarea_wrap::wrap::WrapMode;

// Why a command could not be read.
#[derive(Clone, Copy)]
pub enum Unparsed {
    // The text is no command.
    NoCommand,
    // Out of memory.
    Memory,
}

impl From<AllocError> for Unparsed {
    ghost use Rattle.std.specs.Prelude.{◌≡◌};
    ghost use Rattle.textarea_script_syntax.specs.declared.arguments.Unparsed.TheVariants.{Memory};

    ghost from_gives = { λ _ error. error ≡ Memory };

    fn from(_error: AllocError) -> Unparsed {
        Unparsed::Memory
    }
}

impl<T: Drop> From<AllocFailed<T>> for Unparsed {
    ghost use Rattle.std.specs.Prelude.{◌≡◌};
    ghost use Rattle.textarea_script_syntax.specs.declared.arguments.Unparsed.TheVariants.{Memory};

    ghost from_gives = { λ _ error. error ≡ Memory };

    fn from(_error: AllocFailed<T>) -> Unparsed {
        Unparsed::Memory
    }
}

// Splits the text at its first space: the text before it, and the text after it.
pub fn split_first(text: &str) -> Option<(&str, &str)>
    ensures value { MatchOption result (split_first text.now ≡ None)
        (λ x. split_first text.now ≡ Some (x.0.now, x.1.now)) }
    ensures shorter { IfSome result (λ x. length x.1.now < length text.now) }
{
    text.split_once(' ')
}

// Whether the text has only digits.
fn is_all_digits(text: &str) -> bool
    ensures { result ≡ list_all (λ byte. is_ascii_digit byte) text.now }
{
    text.bytes().all(|byte| byte.is_ascii_digit())
}

// The decimal number that the text is. It has only digits; leading zeros are allowed.
#[tactic(auto, unfolding(crate::specs::Arguments::number_below))]
pub fn number(text: &str) -> Option<u64>
    ensures { result ≡ number text.now }
{
    if !is_all_digits(text) {
        return None;
    }
    text.parse().ok()
}

// A number of 64 bits, as a size.
pub fn size(text: &str) -> Option<usize>
    ensures { result ≡ number text.now }
{
    Some(number(text)? as usize)
}

// A number of 64 bits, as a size, or none, which `None` names.
pub fn size_or_none(text: &str) -> Option<Option<usize>>
    ensures { result ≡ number_or_none text.now }
{
    match text {
        "None" => Some(None),
        _ => Some(Some(size(text)?)),
    }
}

// A number of 16 bits.
#[tactic(auto, unfolding(crate::specs::Arguments::number_below))]
pub fn short_number(text: &str) -> Option<u16>
    ensures { result ≡ short_number text.now }
{
    u16::try_from(number(text)?).ok()
}

// A number of 8 bits.
#[tactic(auto, unfolding(crate::specs::Arguments::number_below))]
pub fn byte_number(text: &str) -> Option<u8>
    ensures { result ≡ byte_number text.now }
{
    u8::try_from(number(text)?).ok()
}

// Two numbers of 16 bits with one space between them.
pub fn two_short_numbers(text: &str) -> Option<(u16, u16)>
    ensures { result ≡ two_short_numbers text.now }
{
    let (first, second) = split_first(text)?;
    Some((short_number(first)?, short_number(second)?))
}

// Two numbers with one space between them.
pub fn two_numbers(text: &str) -> Option<(usize, usize)>
    ensures { result ≡ two_numbers text.now }
{
    let (first, second) = split_first(text)?;
    Some((size(first)?, size(second)?))
}

// Two positions, each a row and a column, all separated by single spaces.
pub fn two_places(text: &str) -> Option<((usize, usize), (usize, usize))>
    ensures { result ≡ two_places text.now }
{
    let (row, rest) = split_first(text)?;
    let (column, end) = split_first(rest)?;
    let end = two_numbers(end)?;
    Some(((size(row)?, size(column)?), end))
}

// The area that the text names: its left column, its top row, its width and its height, separated
// by single spaces.
pub fn area(text: &str) -> Option<Rect>
    ensures { option_map sides_of_area result ≡ sides text.now }
{
    let (x, rest) = split_first(text)?;
    let (y, size) = split_first(rest)?;
    let (width, height) = two_short_numbers(size)?;
    Some(Rect::new(short_number(x)?, short_number(y)?, width, height))
}

// A number of 16 bits. A negative number has a `-` before its digits.
fn signed_number(text: &str) -> Option<i16>
    ensures { result ≡ signed_number text.now }
{
    let digits = text.strip_prefix('-').unwrap_or(text);
    if !is_all_digits(digits) {
        return None;
    }
    text.parse().ok()
}

// The scroll by the rows and the columns that the text names, separated by one space.
pub fn scroll_amounts(text: &str) -> Option<Scrolling>
    ensures { result ≡ scroll_amounts text.now }
{
    let (rows, cols) = split_first(text)?;
    Some(Scrolling::Delta {
        rows: signed_number(rows)?,
        cols: signed_number(cols)?,
    })
}

// The scroll by pages that the text names.
pub fn page_named(name: &str) -> Option<Scrolling>
    ensures { result ≡ page name.now }
{
    Some(match name {
        "PageDown" => Scrolling::PageDown,
        "PageUp" => Scrolling::PageUp,
        "HalfPageDown" => Scrolling::HalfPageDown,
        "HalfPageUp" => Scrolling::HalfPageUp,
        _ => return None,
    })
}

// The atomic ranges that the text names, each by its row, its first column and the column after its
// last one. All numbers are separated by single spaces.
pub fn ranges(alloc: Global, text: &str) -> Result<Vec<AtomicRange>, Unparsed>
    ensures { IsReadAs (λ read. read.items) (ranges text.now) result }
{
    let mut ranges = Vec::new(alloc);
    let mut rest = Some(text);
    while let Some(text) = rest {
        let Some((range, after)) = first_range(text) else {
            return Err(Unparsed::NoCommand);
        };
        ranges.push(range)?;
        rest = after;
    }
    Ok(ranges)
}

// The first range that the text names, and the text after the space that ends it, if there is one.
fn first_range(text: &str) -> Option<(AtomicRange, Option<&str>)>
    ensures value { MatchOption result (ranges text.now ≡ None) (λ x. ranges text.now
        ≡ option_map (λ more. x.0 ∷ more) (ranges_after_space (option_copied x.1))) }
    ensures shorter { IfSome result (λ x. IfSome x.1 (λ rest. length rest.now < length text.now)) }
{
    let (row, rest) = split_first(text)?;
    let (start, rest) = split_first(rest)?;
    match split_first(rest) {
        Some((end, after)) => Some((range(row, start, end)?, Some(after))),
        None => Some((range(row, start, rest)?, None)),
    }
}

// The range of a row, a first column, and the column after the last one.
fn range(row: &str, start: &str, end: &str) -> Option<AtomicRange>
    ensures { result ≡ range row.now start.now end.now }
{
    Some(AtomicRange {
        row: size(row)?,
        start_col: size(start)?,
        end_col: size(end)?,
    })
}

// The truth value that the text names.
pub fn truth(text: &str) -> Option<bool>
    ensures { result ≡ truth text.now }
{
    match text {
        "true" => Some(true),
        "false" => Some(false),
        _ => None,
    }
}

// The move that the text names. `Jump` has its own command.
pub fn move_named(name: &str) -> Option<CursorMove>
    ensures { result ≡ move_named name.now }
{
    Some(match name {
        "Forward" => CursorMove::Forward,
        "Back" => CursorMove::Back,
        "Up" => CursorMove::Up,
        "Down" => CursorMove::Down,
        "Head" => CursorMove::Head,
        "End" => CursorMove::End,
        "Top" => CursorMove::Top,
        "Bottom" => CursorMove::Bottom,
        "WordForward" => CursorMove::WordForward,
        "WordEnd" => CursorMove::WordEnd,
        "WordBack" => CursorMove::WordBack,
        "ParagraphForward" => CursorMove::ParagraphForward,
        "ParagraphBack" => CursorMove::ParagraphBack,
        "InViewport" => CursorMove::InViewport,
        _ => return None,
    })
}

// The unit of changes that the text names; `None` is a name too, of no unit.
pub fn change_unit_named(name: &str) -> Option<Option<ChangeUnit>>
    ensures { result ≡ change_unit_named name.now }
{
    Some(match name {
        "Characters" => Some(ChangeUnit::Characters),
        "Bytes" => Some(ChangeUnit::Bytes),
        "Utf16" => Some(ChangeUnit::Utf16),
        "None" => None,
        _ => return None,
    })
}

// The unit of the cursor that the text names.
pub fn cursor_unit_named(name: &str) -> Option<CursorUnit>
    ensures { result ≡ cursor_unit_named name.now }
{
    Some(match name {
        "Character" => CursorUnit::Character,
        "Cluster" => CursorUnit::Cluster,
        _ => return None,
    })
}

// The wrap mode that the text names.
pub fn mode_named(name: &str) -> Option<WrapMode>
    ensures { result ≡ mode_named name.now }
{
    Some(match name {
        "None" => WrapMode::None,
        "Word" => WrapMode::Word,
        "Glyph" => WrapMode::Glyph,
        "WordOrGlyph" => WrapMode::WordOrGlyph,
        _ => return None,
    })
}

// The input that the text names: the modifiers (letters of `cas`, or `-`), a space, and the key.
pub fn input_named(text: &str) -> Option<Input>
    ensures { result ≡ input_named text.now }
{
    let (modifiers, key) = split_first(text)?;
    let (ctrl, alt, shift) = modifiers_named(modifiers)?;
    Some(Input {
        key: key_named(key)?,
        ctrl,
        alt,
        shift,
    })
}

// Whether Ctrl, Alt and Shift are held, by the letters `c`, `a` and `s`.
fn modifiers_named(modifiers: &str) -> Option<(bool, bool, bool)>
    ensures { result ≡ modifiers_named modifiers.now }
{
    match modifiers {
        "-" => Some((false, false, false)),
        "c" => Some((true, false, false)),
        "a" => Some((false, true, false)),
        "s" => Some((false, false, true)),
        "ca" => Some((true, true, false)),
        "cs" => Some((true, false, true)),
        "as" => Some((false, true, true)),
        "cas" => Some((true, true, true)),
        _ => None,
    }
}

// The key that the text names. One space separates a key's name from its argument, if it has one.
#[tactic(auto, unfolding(crate::specs::Inputs::key_named))]
fn key_named(text: &str) -> Option<Key>
    ensures { result ≡ key_named text.now }
{
    match split_first(text) {
        Some((name, argument)) => key_with(name, argument),
        None => key_without_arguments(text),
    }
}

// The key of a character, or a function key by its number.
fn key_with(name: &str, argument: &str) -> Option<Key>
    ensures { result ≡ key_with name.now argument.now }
{
    Some(match name {
        "Char" => Key::Char(one_character(argument)?),
        "F" => Key::F(byte_number(argument)?),
        _ => return None,
    })
}

// The key of this name. It has no argument.
fn key_without_arguments(name: &str) -> Option<Key>
    ensures { result ≡ key_without_arguments name.now }
{
    Some(match name {
        "Backspace" => Key::Backspace,
        "Enter" => Key::Enter,
        "Left" => Key::Left,
        "Right" => Key::Right,
        "Up" => Key::Up,
        "Down" => Key::Down,
        "Tab" => Key::Tab,
        "Delete" => Key::Delete,
        "Home" => Key::Home,
        "End" => Key::End,
        "PageUp" => Key::PageUp,
        "PageDown" => Key::PageDown,
        "Esc" => Key::Esc,
        "Copy" => Key::Copy,
        "Cut" => Key::Cut,
        "Paste" => Key::Paste,
        "MouseScrollDown" => Key::MouseScrollDown,
        "MouseScrollUp" => Key::MouseScrollUp,
        "Null" => Key::Null,
        _ => return None,
    })
}

// The only character of the text, written as itself or as an escape.
#[tactic(auto, unfolding(crate::specs::Escapes::character))]
pub fn one_character(text: &str) -> Option<char>
    ensures { result ≡ character text.now }
{
    let (c, rest) = first_character(text)?;
    rest.is_empty().then_some(c)
}

// Returns the text with its escapes replaced by their characters.
pub fn unescape(alloc: Global, text: &str) -> Result<String, Unparsed>
    ensures { IsReadAs string_bytes (unescaped text.now) result }
{
    let mut unescaped = String::with_capacity(alloc, text.len())?;
    let mut rest = push_line(&mut unescaped, text)?;
    while let Some(text) = rest {
        unescaped.push('\n')?;
        let after = push_line(&mut unescaped, text)?;
        rest = after;
    }
    Ok(unescaped)
}

// Returns the lines of a text with escapes. The text is split at each escape `\n`. An escape of a
// line feed by its number is a character of its line.
pub fn unescaped_lines(alloc: Global, text: &str) -> Result<Vec<String>, Unparsed>
    ensures some { IfOk result (λ lines. 0 < vec_len lines) }
    ensures value { IsReadAs (λ lines. map string_bytes lines.items)
        (unescaped_lines text.now) result }
{
    let mut lines = Vec::new(alloc);
    let mut rest = Some(text);
    while let Some(text) = rest {
        let mut line = String::new(alloc);
        rest = push_line(&mut line, text)?;
        lines.push(line)?;
    }
    Ok(lines)
}

// Appends the first line of a text with escapes to `line`, and returns the text after the `\n` that
// ends it, if there is one.
fn push_line<'a>(line: &mut String, text: &'a str) -> Result<Option<&'a str>, Unparsed>
    ensures value { IsLinePushed (string_bytes line.old) (string_bytes line.new) text.now result }
    ensures shorter { IfOk result (λ after. IfSome after
        (λ rest. length rest.now < length text.now)) }
{
    let mut rest = text;
    while let Some((front, escaped)) = split_at_backslash(rest) {
        line.push_str(front)?;
        if let Some(after) = escaped.strip_prefix('n') {
            return Ok(Some(after));
        }
        let Some((c, after)) = escaped_character(escaped) else {
            return Err(Unparsed::NoCommand);
        };
        line.push(c)?;
        rest = after;
    }
    push_plain(line, rest)?;
    Ok(None)
}

// Appends a text without escapes to `line`, as all that is left of it.
fn push_plain(line: &mut String, text: &str) -> Result<(), AllocError>
    requires { HasNoBackslash text.now }
    ensures { OnOk result
        (option_map (λ lines. in_front (string_bytes line.old) lines) (unescaped_lines text.now)
        ≡ Some (string_bytes line.new ∷ [])) }
{
    line.push_str(text)?;
    Ok(())
}

// Splits the text at its first backslash: the text before it, and the text after it. Most such texts
// are short, so its bytes are tested one by one.
fn split_at_backslash(text: &str) -> Option<(&str, &str)>
    ensures { MatchOption result (HasNoBackslash text.now)
        (λ x. (text.now ≡ x.0.now ++ (92 ∷ x.1.now)) × HasNoBackslash x.0.now) }
{
    let bytes = text.as_bytes();
    for index in 0..bytes.len() {
        if bytes[index] == b'\\' {
            return Some((&text[..index], &text[index + 1..]));
        }
    }
    None
}

// The first character of a text with escapes, and the text after it.
fn first_character(text: &str) -> Option<(char, &str)>
    ensures value { MatchOption result (first_character text.now ≡ None)
        (λ x. first_character text.now ≡ Some (x.0, x.1.now)) }
    ensures shorter { IfSome result (λ x. length x.1.now < length text.now) }
{
    let mut characters = text.chars();
    let first = characters.next()?;
    let rest = characters.as_str();
    if first == '\\' {
        return escaped_character(rest);
    }
    Some((first, rest))
}

// The character of an escape, and the text after it. The argument is the text after the backslash.
#[tactic(auto, using(crate::proofs::Escapes::escape_letter), unfolding(crate::specs::Escapes::escape))]
fn escaped_character(text: &str) -> Option<(char, &str)>
    ensures value { MatchOption result (escape text.now ≡ None)
        (λ x. escape text.now ≡ Some (x.0, x.1.now)) }
    ensures shorter { IfSome result (λ x. length x.1.now < length text.now) }
{
    let mut rest = text.chars();
    match rest.next()? {
        'n' => Some(('\n', rest.as_str())),
        'r' => Some(('\r', rest.as_str())),
        't' => Some(('\t', rest.as_str())),
        '\\' => Some(('\\', rest.as_str())),
        'u' => numbered_character(rest.as_str()),
        _ => None,
    }
}

// The character of a number in braces, of 1 to 6 hexadecimal digits, and the text after it.
fn numbered_character(text: &str) -> Option<(char, &str)>
    ensures value { MatchOption result (numbered_escape text.now ≡ None)
        (λ x. numbered_escape text.now ≡ Some (x.0, x.1.now)) }
    ensures shorter { IfSome result (λ x. length x.1.now < length text.now) }
{
    let (digits, rest) = text.strip_prefix('{')?.split_once('}')?;
    Some((character_of_number(digits)?, rest))
}

// The character whose number is written in 1 to 6 hexadecimal digits.
fn character_of_number(digits: &str) -> Option<char>
    ensures { result ≡ character_numbered digits.now }
{
    if 6 < digits.len() || !is_all_hexadecimal(digits) {
        return None;
    }
    char::from_u32(u32::from_str_radix(digits, 16).ok()?)
}

// Whether the text has only hexadecimal digits.
fn is_all_hexadecimal(text: &str) -> bool
    ensures { result ≡ list_all (λ byte. is_ascii_hexdigit byte) text.now }
{
    text.bytes().all(|byte| byte.is_ascii_hexdigit())
}
