ghost use Rattle.std.specs.Prelude.{◌≡◌, Some};
ghost use Rattle.textarea_c_data.specs.Styles.{color_of, plain_color};

use textarea_screen::screen;

/// A colour, or none: its kind is one of `TA_COLOR_..`. An RGB colour has its three parts here, and
/// an indexed one its number in `red`. With all bytes zero it is none.
#[repr(C)]
#[derive(Clone, Copy, Debug, PartialEq, Eq)]
pub struct CColor {
    pub kind: u8,
    pub red: u8,
    pub green: u8,
    pub blue: u8,
}

impl CColor {
    /// Returns the colour, or `None` in the inner option for none. Returns `None` for a kind that
    /// does not exist.
    pub fn read(self) -> Option<Option<screen::Color>>
        ensures { result ≡ color_of self }
    {
        Some(Some(match self.kind {
            0 => return Some(None),
            1 => screen::Color::Reset,
            2 => screen::Color::Black,
            3 => screen::Color::Red,
            4 => screen::Color::Green,
            5 => screen::Color::Yellow,
            6 => screen::Color::Blue,
            7 => screen::Color::Magenta,
            8 => screen::Color::Cyan,
            9 => screen::Color::Gray,
            10 => screen::Color::DarkGray,
            11 => screen::Color::LightRed,
            12 => screen::Color::LightGreen,
            13 => screen::Color::LightYellow,
            14 => screen::Color::LightBlue,
            15 => screen::Color::LightMagenta,
            16 => screen::Color::LightCyan,
            17 => screen::Color::White,
            18 => screen::Color::Rgb(self.red, self.green, self.blue),
            19 => screen::Color::Indexed(self.red),
            _ => return None,
        }))
    }

    /// Returns the struct that is read as this colour, or as none.
    pub fn of(color: Option<screen::Color>) -> CColor
        ensures value { result ≡ plain_color color }
        ensures read { color_of result ≡ Some color }
    {
        match color {
            Some(color) => CColor::some(color),
            None => CColor {
                kind: 0,
                red: 0,
                green: 0,
                blue: 0,
            },
        }
    }

    // Returns the struct that is read as this colour. Without jumps, as a frame has many colours.
    fn some(color: screen::Color) -> CColor
        ensures { result ≡ plain_color (Some color) }
    {
        let (red, green, blue) = parts_of(color);
        CColor {
            kind: kind_of(color),
            red,
            green,
            blue,
        }
    }
}

// Returns the number of the colour's kind.
fn kind_of(color: screen::Color) -> u8
    ensures { result ≡ (plain_color (Some color)).kind }
{
    match color {
        screen::Color::Reset => 1,
        screen::Color::Black => 2,
        screen::Color::Red => 3,
        screen::Color::Green => 4,
        screen::Color::Yellow => 5,
        screen::Color::Blue => 6,
        screen::Color::Magenta => 7,
        screen::Color::Cyan => 8,
        screen::Color::Gray => 9,
        screen::Color::DarkGray => 10,
        screen::Color::LightRed => 11,
        screen::Color::LightGreen => 12,
        screen::Color::LightYellow => 13,
        screen::Color::LightBlue => 14,
        screen::Color::LightMagenta => 15,
        screen::Color::LightCyan => 16,
        screen::Color::White => 17,
        screen::Color::Rgb(_, _, _) => 18,
        screen::Color::Indexed(_) => 19,
    }
}

// Returns the colour's parts, or its number and zeroes.
fn parts_of(color: screen::Color) -> (u8, u8, u8)
    ensures red { result.0 ≡ (plain_color (Some color)).red }
    ensures green { result.1 ≡ (plain_color (Some color)).green }
    ensures blue { result.2 ≡ (plain_color (Some color)).blue }
{
    match color {
        screen::Color::Rgb(red, green, blue) => (red, green, blue),
        screen::Color::Indexed(number) => (number, 0, 0),
        _ => (0, 0, 0),
    }
}
