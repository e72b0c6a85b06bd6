//! The colours that a terminal has, and the nearest ones to others.
ghost use Rattle.std.specs.Prelude.{◌≡◌, ◌<◌, ◌≤◌, nat_lt, if◌then◌else◌};
ghost use Rattle.textarea_terminal.specs.PaintColors.{cube_parts, distance_between, gray_of, gray_parts, indexed_parts, level_of, level_value, named_color, named_parts, nearest_indexed, nearest_named, shown_color, squared_difference, with_index, with_name};

use textarea_screen::screen::Color;

/// The colours that a terminal has.
#[derive(Clone, Copy, Debug, PartialEq, Eq)]
pub enum Colors {
    /// Only its own two.
    None,
    /// Its own two, and the sixteen with names.
    Sixteen,
    /// Those, and the 256 with numbers.
    Indexed,
    /// All of them.
    True,
}

/// The parts of a colour, each from 0 to 255.
#[derive(Clone, Copy)]
struct ColorParts {
    red: u8,
    green: u8,
    blue: u8,
}

static REDS: [u8; 16] = [
    0, 205, 0, 205, 0, 205, 0, 229, 127, 255, 0, 255, 92, 255, 0, 255,
];

static GREENS: [u8; 16] = [
    0, 0, 205, 205, 0, 0, 205, 229, 127, 0, 255, 255, 92, 0, 255, 255,
];

static BLUES: [u8; 16] = [
    0, 0, 0, 0, 238, 205, 205, 229, 127, 0, 0, 0, 255, 255, 255, 255,
];

/// The colour that a terminal with these colours shows for another.
#[inline]
pub(super) fn shown_color(colors: Colors, color: Color) -> Color
    ensures { result ≡ shown_color colors color }
{
    match colors {
        Colors::True => color,
        Colors::Indexed => with_index(color),
        Colors::Sixteen => with_name(color),
        Colors::None => Color::Reset,
    }
}

/// The colour, or the nearest one that has a number.
#[inline(never)]
fn with_index(color: Color) -> Color
    ensures { result ≡ with_index color }
{
    match color {
        Color::Rgb(red, green, blue) => Color::Indexed(nearest_indexed(ColorParts {
            red,
            green,
            blue,
        })),
        other => other,
    }
}

/// The colour, or the nearest one that has a name.
#[inline(never)]
fn with_name(color: Color) -> Color
    ensures { result ≡ with_name color }
{
    match color {
        Color::Rgb(red, green, blue) => named_color(nearest_named(ColorParts { red, green, blue })),
        Color::Indexed(number) => named_color(named_number(number)),
        other => other,
    }
}

/// The number of the named colour that is nearest to the colour of a number.
fn named_number(number: u8) -> u8
    ensures { named_color result
        ≡ (if nat_lt number 16 then named_color number
        else named_color (nearest_named (indexed_parts number))) }
{
    if number < 16 {
        number
    } else {
        nearest_named(indexed_parts(number))
    }
}

/// The named colour of a number.
fn named_color(number: u8) -> Color
    ensures { result ≡ named_color number }
{
    match number {
        0 => Color::Black,
        1 => Color::Red,
        2 => Color::Green,
        3 => Color::Yellow,
        4 => Color::Blue,
        5 => Color::Magenta,
        6 => Color::Cyan,
        7 => Color::Gray,
        8 => Color::DarkGray,
        9 => Color::LightRed,
        10 => Color::LightGreen,
        11 => Color::LightYellow,
        12 => Color::LightBlue,
        13 => Color::LightMagenta,
        14 => Color::LightCyan,
        _ => Color::White,
    }
}

/// The square of how far two parts are apart.
fn squared_difference(a: u8, b: u8) -> u32
    ensures value { result ≡ squared_difference a b }
    ensures bound { result ≤ 65025 }
{
    let difference = if b < a {
        u32::from(a - b)
    } else {
        u32::from(b - a)
    };
    difference * difference
}

/// How far two colours are apart.
fn distance_between(a: ColorParts, b: ColorParts) -> u32
    ensures { result ≡ distance_between a b }
{
    squared_difference(a.red, b.red)
        + squared_difference(a.green, b.green)
        + squared_difference(a.blue, b.blue)
}

/// The parts of a named colour.
#[tactic(auto, unfolding(crate::specs::PaintColors::named_parts))]
fn named_parts(number: usize) -> ColorParts
    requires { number < 16 }
    ensures { result ≡ named_parts number }
{
    ColorParts {
        red: REDS[number],
        green: GREENS[number],
        blue: BLUES[number],
    }
}

/// The number of the nearest named colour.
fn nearest_named(parts: ColorParts) -> u8
    ensures { result ≡ nearest_named parts }
{
    let mut nearest = 0usize;
    let mut least = distance_between(parts, named_parts(0));
    for number in 1..16usize {
        let distance = distance_between(parts, named_parts(number));
        if distance < least {
            nearest = number;
            least = distance;
        }
    }
    nearest as u8
}

/// The value of a level of the cube.
fn level_value(level: u8) -> u8
    requires { level < 6 }
    ensures { result ≡ level_value level }
{
    if level < 1 { 0 } else { 55 + 40 * level }
}

/// The level of the cube that is nearest to a part.
fn level_of(part: u8) -> u8
    ensures value { result ≡ level_of part }
    ensures bound { result < 6 }
{
    if part < 48 {
        0
    } else if part < 115 {
        1
    } else {
        (part - 35) / 40
    }
}

/// The gray that is nearest to the mean of the parts.
fn gray_of(parts: ColorParts) -> u8
    ensures value { result ≡ gray_of parts }
    ensures bound { result < 24 }
{
    let mean = (u16::from(parts.red) + u16::from(parts.green) + u16::from(parts.blue)) / 3;
    (mean.saturating_sub(3) / 10).min(23) as u8
}

/// The parts of a colour of the cube.
fn cube_parts(red: u8, green: u8, blue: u8) -> ColorParts
    requires red { red < 6 }
    requires green { green < 6 }
    requires blue { blue < 6 }
    ensures { result ≡ cube_parts red green blue }
{
    ColorParts {
        red: level_value(red),
        green: level_value(green),
        blue: level_value(blue),
    }
}

/// The parts of a gray.
fn gray_parts(gray: u8) -> ColorParts
    requires { gray < 24 }
    ensures { result ≡ gray_parts gray }
{
    let value = 8 + 10 * gray;
    ColorParts {
        red: value,
        green: value,
        blue: value,
    }
}

/// The parts of a colour with a number from 16 on.
fn indexed_parts(number: u8) -> ColorParts
    requires { 16 ≤ number }
    ensures { result ≡ indexed_parts number }
{
    if number < 232 {
        cube_parts((number - 16) / 36, (number - 16) / 6 % 6, (number - 16) % 6)
    } else {
        gray_parts(number - 232)
    }
}

/// The number from 16 on of the nearest colour.
fn nearest_indexed(parts: ColorParts) -> u8
    ensures { result ≡ nearest_indexed parts }
{
    let gray = gray_of(parts);
    let (red, green, blue) = (
        level_of(parts.red),
        level_of(parts.green),
        level_of(parts.blue),
    );
    let to_gray = distance_between(parts, gray_parts(gray));
    let to_cube = distance_between(parts, cube_parts(red, green, blue));
    if to_gray < to_cube {
        232 + gray
    } else {
        16 + 36 * red + 6 * green + blue
    }
}
