//! The number of a line, as a text.
ghost use Rattle.std.specs.Prelude.{◌≡◌};
ghost use Rattle.textarea_editor.specs.LineNumber.{IsLineNumber, row_of_line};

/// Returns the decimal number that a text is, if it is one.
pub fn line_number(text: &str) -> Option<usize>
    ensures { IsLineNumber text.now result }
{
    match text.parse::<usize>() {
        Ok(number) => Some(number),
        Err(_) => None,
    }
}

/// Returns the row of a line's number, if there is such a line: lines count from 1, rows from 0.
pub fn row_of_line(number: Option<usize>) -> Option<usize>
    ensures { result ≡ row_of_line number }
{
    match number {
        Some(number) if number > 0 => Some(number - 1),
        _ => None,
    }
}
