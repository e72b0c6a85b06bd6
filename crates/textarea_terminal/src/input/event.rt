//! Events that a terminal reports.

use textarea_data::input::Input;

/// A button of a mouse.
#[derive(Clone, Copy, Debug, PartialEq, Eq)]
pub enum MouseButton {
    /// The left one.
    Left,
    /// The middle one, or the wheel if it is pressed.
    Middle,
    /// The right one.
    Right,
    /// A further one, by its number: 8 is mostly the one for "back", and 9 the one for "forward".
    Other(u8),
}

/// What a mouse did.
#[derive(Clone, Copy, Debug, PartialEq, Eq)]
pub enum MouseKind {
    /// A button went down.
    Press(MouseButton),
    /// A button went up.
    Release(MouseButton),
    /// The mouse moved to another cell with a button down.
    Drag(MouseButton),
    /// The mouse moved to another cell with no button down.
    Move,
    /// A button went up, and the report doesn't say which (the mice of X10, and modes 1005 and
    /// 1015).
    ReleaseAny,
    /// A step of the wheel to the left.
    WheelLeft,
    /// A step of the wheel to the right.
    WheelRight,
}

/// A report of a mouse, except of the steps of its wheel up and down.
#[derive(Clone, Copy, Debug, PartialEq, Eq)]
pub struct Mouse {
    /// What it did.
    pub kind: MouseKind,
    /// The column of the cell that it is at, from 0.
    pub column: u16,
    /// The row of that cell, from 0.
    pub row: u16,
    /// Whether Control is down.
    pub ctrl: bool,
    /// Whether Alt is down.
    pub alt: bool,
    /// Whether Shift is down.
    pub shift: bool,
}

/// An event that a terminal reports.
#[derive(Debug, Drop, PartialEq, Eq)]
pub enum Event {
    /// A key, or a step of the mouse's wheel up or down, in any cell:
    /// [`Key::MouseScrollUp`](textarea_data::input::Key::MouseScrollUp) or
    /// [`Key::MouseScrollDown`](textarea_data::input::Key::MouseScrollDown).
    ///
    /// Shift is set only with keys that type no character: a capital letter has no Shift, unless
    /// Control or Alt is down too. The keys Meta and Super count as Alt.
    Input(Input),
    /// A pasted text. Invalid UTF-8 is U+FFFD, one for each maximal subpart.
    Paste(String),
    /// The mouse was pressed, released or moved.
    Mouse(Mouse),
    /// The terminal's size in cells, as the reply to a query or by the terminal itself.
    Size {
        /// The number of columns.
        columns: u16,
        /// The number of rows.
        rows: u16,
    },
    /// The position of the terminal's cursor, as the reply to a query.
    Cursor {
        /// The column, from 0.
        column: u16,
        /// The row, from 0.
        row: u16,
    },
    /// The terminal's window got the focus.
    FocusGained,
    /// The terminal's window lost the focus.
    FocusLost,
    /// A sequence that is none of the above.
    Unknown,
}

/// What is at the front of bytes, other than a pasted text.
#[derive(Debug, Drop, PartialEq, Eq)]
pub enum Unit {
    /// A key, or a step of the wheel.
    Input(Input),
    /// Another report of the mouse.
    Mouse(Mouse),
    /// The size, as the reply to a query.
    Size {
        /// The number of columns.
        columns: u16,
        /// The number of rows.
        rows: u16,
    },
    /// The size, by the terminal itself (mode 2048).
    Resized {
        /// The number of columns.
        columns: u16,
        /// The number of rows.
        rows: u16,
    },
    /// The cursor's position, as the reply to a query.
    Cursor {
        /// The column, from 0.
        column: u16,
        /// The row, from 0.
        row: u16,
    },
    /// The focus came.
    FocusGained,
    /// The focus went.
    FocusLost,
    /// A key went up, which is no event.
    Released,
    /// A sequence that is none of the above.
    Unknown,
}
