//! The bytes of each control.
ghost use Rattle.std.specs.Prelude.{◌≡◌, ℕ, ◌+◌, ◌<◌, ◌≤◌, ◌^◌, ◌++◌, OnOk, IfOk, [], ◌∷◌, codes, decimal};
ghost use Rattle.textarea_terminal.specs.Control.{bytes_of, control_bytes, introducer};
ghost use Rattle.textarea_terminal.specs.Control.Control.{MoveTo};
ghost use Rattle.textarea_terminal.specs.PenControls.{pen_controls};
ghost use Rattle.textarea_terminal.specs.Pen.{Rendition, renditions_bytes, parameter_count, added, all_numbers, foreground, background, color_bytes};

use super::look::Pen;
use std::alloc::AllocError;
use textarea_screen::screen::{Color, Modifier};

/// The SGR numbers of the modifiers. Number N is bit N - 1 of a `Modifier`.
const MODIFIERS: [u8; 9] = [1, 2, 3, 4, 5, 6, 7, 8, 9];

/// A terminal may leave out the parameters of a control after these.
const MOST_PARAMETERS: u8 = 16;

/// Writes a number in decimal.
fn write_number(bytes: &mut Vec<u8>, number: u64) -> Result<(), AllocError>
    ensures { OnOk result (bytes.new.items ≡ bytes.old.items ++ decimal number) }
{
    if 10 <= number {
        write_number(bytes, number / 10)?;
    }
    bytes.push(b'0' + (number % 10) as u8)?;
    Ok(())
}

/// Moves the cursor to a row and a column, each counted from 0.
#[inline(never)]
pub(super) fn write_move(bytes: &mut Vec<u8>, row: u64, column: u64) -> Result<(), AllocError>
    requires row { row + 1 < 2 ^ 64 }
    requires column { column + 1 < 2 ^ 64 }
    ensures { OnOk result
        (bytes.new.items ≡ bytes.old.items ++ control_bytes (MoveTo row column)) }
{
    bytes.extend_from_slice(b"\x1b[")?;
    write_number(bytes, row + 1)?;
    bytes.extend_from_slice(b";")?;
    write_number(bytes, column + 1)?;
    bytes.extend_from_slice(b"H")
}

/// Resets the pen, and gives it a look. A second control has the background if the first would have
/// too many parameters.
#[inline(never)]
pub(super) fn write_pen(bytes: &mut Vec<u8>, look: Pen) -> Result<(), AllocError>
    ensures { OnOk result
        (bytes.new.items ≡ bytes.old.items ++ bytes_of (pen_controls look)) }
{
    bytes.extend_from_slice(b"\x1b[0")?;
    let count = write_modifiers(bytes, look.modifier)?;
    write_foreground(bytes, look.fg)?;
    let in_foreground = parameters(look.fg);
    let in_background = parameters(look.bg);
    if count + in_foreground + in_background <= MOST_PARAMETERS - 1 {
        write_background(bytes, look.bg)?;
    } else {
        begin_background(bytes, look.bg)?;
    }
    bytes.push(b'm')?;
    Ok(())
}

/// EndsFrame the control of a pen, and begins one that gives it a background.
fn begin_background(bytes: &mut Vec<u8>, color: Color) -> Result<(), AllocError>
    ensures { OnOk result (bytes.new.items
        ≡ bytes.old.items ++ codes "m" ++ introducer ++ color_bytes 40 color) }
{
    bytes.extend_from_slice(b"m\x1b[")?;
    write_color(bytes, 40, color)
}

/// The number of parameters of a colour; 0 for the terminal's own, which a pen has after its reset.
fn parameters(color: Color) -> u8
    ensures fg { result ≡ parameter_count (foreground color) }
    ensures bg { result ≡ parameter_count (background color) }
    ensures bound { result ≤ 5 }
{
    match color {
        Color::Reset => 0,
        Color::Rgb(..) => 5,
        Color::Indexed(_) => 3,
        _ => 1,
    }
}

/// Adds the modifiers of a set, in the order of their numbers. Returns how many there are.
fn write_modifiers(bytes: &mut Vec<u8>, modifier: Modifier) -> Result<u8, AllocError>
    ensures wrote { OnOk result (bytes.new.items
        ≡ bytes.old.items ++ renditions_bytes (added modifier all_numbers)) }
    ensures count { IfOk result (λ count. count ≡ parameter_count (added modifier all_numbers)) }
    ensures bound { IfOk result (λ count. count ≤ 9) }
{
    let mut count = 0u8;
    if modifier.0 != 0 {
        for number in &MODIFIERS {
            count += write_modifier(bytes, modifier, *number)?;
        }
    }
    Ok(count)
}

/// Adds the modifier of a number, if the set has it. Returns how many that are.
fn write_modifier(bytes: &mut Vec<u8>, modifier: Modifier, number: u8) -> Result<u8, AllocError>
    requires { (1 ≤ number) × (number ≤ 9) }
    ensures wrote { OnOk result (bytes.new.items
        ≡ bytes.old.items ++ renditions_bytes (added modifier (number ∷ []))) }
    ensures count { IfOk result
        (λ count. count ≡ parameter_count (added modifier (number ∷ []))) }
    ensures bound { IfOk result (λ count. count ≤ 1) }
{
    let bit = 1u16 << (number - 1);
    if modifier.contains(Modifier(bit)) {
        bytes.extend_from_slice(b";")?;
        write_number(bytes, u64::from(number))?;
        return Ok(1);
    }
    Ok(0)
}

fn write_foreground(bytes: &mut Vec<u8>, color: Color) -> Result<(), AllocError>
    ensures { OnOk result (bytes.new.items
        ≡ bytes.old.items ++ renditions_bytes (foreground color)) }
{
    if let Color::Reset = color {
        return Ok(());
    }
    bytes.extend_from_slice(b";")?;
    write_color(bytes, 30, color)
}

fn write_background(bytes: &mut Vec<u8>, color: Color) -> Result<(), AllocError>
    ensures { OnOk result (bytes.new.items
        ≡ bytes.old.items ++ renditions_bytes (background color)) }
{
    if let Color::Reset = color {
        return Ok(());
    }
    bytes.extend_from_slice(b";")?;
    write_color(bytes, 40, color)
}

/// Writes the SGR numbers of a colour. `base` is the number of the first of the eight colours.
fn write_color(bytes: &mut Vec<u8>, base: u64, color: Color) -> Result<(), AllocError>
    requires { base < 256 }
    ensures { OnOk result (bytes.new.items ≡ bytes.old.items ++ color_bytes base color) }
{
    match color {
        Color::Rgb(red, green, blue) => {
            write_number(bytes, base + 8)?;
            bytes.extend_from_slice(b";2;")?;
            write_number(bytes, u64::from(red))?;
            bytes.extend_from_slice(b";")?;
            write_number(bytes, u64::from(green))?;
            bytes.extend_from_slice(b";")?;
            write_number(bytes, u64::from(blue))
        }
        Color::Indexed(number) => {
            write_number(bytes, base + 8)?;
            bytes.extend_from_slice(b";5;")?;
            write_number(bytes, u64::from(number))
        }
        Color::Reset => write_number(bytes, base + 9),
        Color::Black => write_number(bytes, base),
        Color::Red => write_number(bytes, base + 1),
        Color::Green => write_number(bytes, base + 2),
        Color::Yellow => write_number(bytes, base + 3),
        Color::Blue => write_number(bytes, base + 4),
        Color::Magenta => write_number(bytes, base + 5),
        Color::Cyan => write_number(bytes, base + 6),
        Color::Gray => write_number(bytes, base + 7),
        Color::DarkGray => write_number(bytes, base + 60),
        Color::LightRed => write_number(bytes, base + 61),
        Color::LightGreen => write_number(bytes, base + 62),
        Color::LightYellow => write_number(bytes, base + 63),
        Color::LightBlue => write_number(bytes, base + 64),
        Color::LightMagenta => write_number(bytes, base + 65),
        Color::LightCyan => write_number(bytes, base + 66),
        Color::White => write_number(bytes, base + 67),
    }
}
