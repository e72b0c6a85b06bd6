ghost use Rattle.std.specs.Prelude.{◌≡◌};
ghost use Rattle.textarea_screen.specs.declared.screen.rect.Padding.{Padding as Free};
ghost use Rattle.textarea_c_data.specs.Areas.{IsArea, padding_of, plain_padding};

use textarea_screen::screen;

/// A rectangle of cells: its left column, its top row, its width and its height.
#[repr(C)]
#[derive(Clone, Copy, Debug, PartialEq, Eq)]
pub struct Area {
    pub x: u16,
    pub y: u16,
    pub width: u16,
    pub height: u16,
}

impl Area {
    /// Returns the rectangle. Columns and rows past 65535 are left out.
    pub fn read(self) -> screen::Rect
        ensures { IsArea self result }
    {
        screen::Rect::new(self.x, self.y, self.width, self.height)
    }

    pub fn of(area: screen::Rect) -> Area
        ensures { IsArea result area }
    {
        Area {
            x: area.x,
            y: area.y,
            width: area.width,
            height: area.height,
        }
    }
}

/// Free columns and rows at the four sides of a rectangle.
#[repr(C)]
#[derive(Clone, Copy, Debug, PartialEq, Eq)]
pub struct CPadding {
    pub left: u16,
    pub right: u16,
    pub top: u16,
    pub bottom: u16,
}

impl CPadding {
    pub fn read(self) -> screen::Padding
        ensures { result ≡ padding_of self }
    {
        screen::Padding::new(self.left, self.right, self.top, self.bottom)
    }

    pub fn of(padding: screen::Padding) -> CPadding
        ensures { result ≡ plain_padding padding }
    {
        CPadding {
            left: padding.left,
            right: padding.right,
            top: padding.top,
            bottom: padding.bottom,
        }
    }
}
