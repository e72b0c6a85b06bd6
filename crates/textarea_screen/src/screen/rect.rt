ghost use Rattle.std.specs.Prelude.{◌≡◌, ◌+◌, ◌-◌, ◌*◌, ◌≤◌, ◌⊎◌, ◌↔◌, ◌&&◌, ℕ, false, IsTrue, min};

/// The position of a cell, counted from 0: `x` columns from the left and `y` rows from the top.
#[derive(Clone, Copy, Debug, Default, PartialEq, Eq)]
pub struct Position {
    pub x: u16,
    pub y: u16,
}

impl Position {
    /// Returns the position of column `x` and row `y`.
    pub const fn new(x: u16, y: u16) -> Position
        ensures { result ≡ record { x = x; y = y } }
    {
        Position { x, y }
    }
}

/// The numbers of free columns and rows at the four sides of a rectangle.
#[derive(Clone, Copy, Debug, Default, PartialEq, Eq)]
pub struct Padding {
    pub left: u16,
    pub right: u16,
    pub top: u16,
    pub bottom: u16,
}

impl Padding {
    pub const ZERO: Padding = Padding {
        left: 0,
        right: 0,
        top: 0,
        bottom: 0,
    };

    /// Returns the padding with these numbers of free columns and rows.
    pub const fn new(left: u16, right: u16, top: u16, bottom: u16) -> Padding
        ensures { result ≡ record { left = left; right = right; top = top; bottom = bottom } }
    {
        Padding {
            left,
            right,
            top,
            bottom,
        }
    }
}

/// A rectangle of cells, whose right and bottom edges are at most 65535.
#[derive(Clone, Copy, Debug, PartialEq, Eq)]
pub struct Rect {
    pub x: u16,
    pub y: u16,
    pub width: u16,
    pub height: u16,
    pub ghost right: { x + width ≤ 65535 },
    pub ghost bottom: { y + height ≤ 65535 },
}

impl Rect {
    ghost use Rattle.textarea_screen.specs.Rect.{contains};

    /// Returns the rectangle at column `x` and row `y`. Columns and rows past 65535 are left out.
    pub fn new(x: u16, y: u16, width: u16, height: u16) -> Rect
        ensures x { result.x ≡ x }
        ensures y { result.y ≡ y }
        ensures width { result.width ≡ min width (65535 - x) }
        ensures height { result.height ≡ min height (65535 - y) }
    {
        Rect {
            x,
            y,
            width: width.min(u16::MAX - x),
            height: height.min(u16::MAX - y),
        }
    }

    /// Returns the first column.
    pub fn x(&self) -> u16
        ensures { result ≡ self.now.x }
    {
        self.x
    }

    /// Returns the first row.
    pub fn y(&self) -> u16
        ensures { result ≡ self.now.y }
    {
        self.y
    }

    /// Returns the number of columns.
    pub fn width(&self) -> u16
        ensures { result ≡ self.now.width }
    {
        self.width
    }

    /// Returns the number of rows.
    pub fn height(&self) -> u16
        ensures { result ≡ self.now.height }
    {
        self.height
    }

    /// Returns the column after the last one.
    pub fn right(&self) -> u16
        ensures { result ≡ self.now.x + self.now.width }
    {
        self.x + self.width
    }

    /// Returns the row after the last one.
    pub fn bottom(&self) -> u16
        ensures { result ≡ self.now.y + self.now.height }
    {
        self.y + self.height
    }

    /// Returns the number of cells.
    pub fn area(&self) -> u32
        ensures { result ≡ self.now.width * self.now.height }
    {
        u32::from(self.width) * u32::from(self.height)
    }

    /// Returns whether the rectangle has no cell.
    pub fn is_empty(&self) -> bool
        ensures sides { IsTrue result ↔ ((self.now.width ≡ 0) ⊎ (self.now.height ≡ 0)) }
        ensures cells { IsTrue result → (x y : ℕ) → contains self.now x y ≡ false }
    {
        self.width == 0 || self.height == 0
    }

    /// Returns whether the cell at this position is in the rectangle.
    pub fn contains(&self, position: Position) -> bool
        ensures { result ≡ contains self.now position.x position.y }
    {
        self.x <= position.x
            && position.x < self.x + self.width
            && self.y <= position.y
            && position.y < self.y + self.height
    }

    /// Returns the rectangle of the cells that are in both; it is empty if there are none.
    pub fn intersection(&self, other: Rect) -> Rect
        ensures { (x y : ℕ) → contains result x y ≡ (contains self.now x y && contains other x y) }
    {
        let x = self.x.max(other.x);
        let y = self.y.max(other.y);
        let right = (self.x + self.width).min(other.x + other.width);
        let bottom = (self.y + self.height).min(other.y + other.height);
        Rect {
            x,
            y,
            width: right.saturating_sub(x),
            height: bottom.saturating_sub(y),
        }
    }
}

impl Default for Rect {
    ghost use Rattle.std.specs.Prelude.{◌≡◌};

    ghost is_default = { λ area. (area.x ≡ 0) × (area.y ≡ 0) × (area.width ≡ 0)
        × (area.height ≡ 0) };

    /// Returns the rectangle with no cell at column 0 and row 0.
    fn default() -> Rect {
        Rect::new(0, 0, 0, 0)
    }
}
