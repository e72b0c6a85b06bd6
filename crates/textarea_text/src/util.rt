//! Positions with byte offsets, and strings of spaces.
ghost use Rattle.std.specs.Prelude.{◌≡◌, replicate};

/// A position in a text: row and column from 0, the column in characters, and the column's byte
/// offset in the line.
#[derive(Clone, Debug, PartialEq, Eq, Drop)]
pub struct Pos {
    pub row: usize,
    pub col: usize,
    pub offset: usize,
}

impl Pos {
    pub fn new(row: usize, col: usize, offset: usize) -> Self
        ensures { result ≡ record { row = row; col = col; offset = offset } }
    {
        Pos { row, col, offset }
    }
}

// The longest string that `spaces` returns.
const SPACES: &str =
    "                                                                                                                                                                                                                                                               ";

/// Returns `size` spaces.
pub fn spaces(size: u8) -> &'static str
    ensures { result.now ≡ replicate size 32 }
{
    &SPACES[..size as usize]
}
