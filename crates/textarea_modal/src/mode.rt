//! The modes of a modal editor.

/// What an operator does with the text that a motion covers.
#[derive(Clone, Copy, Debug, PartialEq, Eq)]
pub enum Op {
    /// Cuts the text.
    Delete,
    /// Copies the text.
    Yank,
    /// Cuts the text, and enters Insert, so that typed text replaces it.
    Change,
}

/// The mode, which decides what keys do.
#[derive(Clone, Copy, Debug, PartialEq, Eq)]
pub enum Mode {
    /// Keys are moves and commands.
    Normal,
    /// Keys insert text.
    Insert,
    /// Keys are moves that select, and commands on the selection.
    Visual,
    /// The next key is the motion of this operator.
    Operator(Op),
}
