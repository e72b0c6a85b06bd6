ghost use Rattle.std.specs.Prelude.{⊤, ◌≡◌, ◌==◌, ◌+◌, ◌-◌, ℕ, [], ◌∷◌, codes, min, Some, None, IfOk, IsOk, IsTrue};
ghost use Rattle.std.specs.Int.RustNames.{bit_and, bit_or};
ghost use Rattle.textarea_screen.specs.Inset.{inset_of};

use super::rect::{Padding, Rect};
use super::style::Style;
use super::text::Line;
use bitflags::{Flag, Flags, bitflag_items};
use std::alloc::AllocError;

/// The sides of a block that have a border: a set with one bit for each side.
#[derive(Clone, Copy, Debug, Default, PartialEq, Eq)]
pub struct Borders(pub u8);

bitflag_items! {
    impl Borders: u8 {
        const TOP = 1;
        const RIGHT = 2;
        const BOTTOM = 4;
        const LEFT = 8;
    }
}

impl Borders {
    pub const NONE: Borders = Borders(0);

    pub const ALL: Borders = Borders(15);

    /// Returns the sides that are in either set.
    pub fn union(self, other: Borders) -> Borders
        ensures { result ≡ record { 0 = bit_or self.0 other.0 } }
    {
        Borders(self.0 | other.0)
    }

    /// Returns whether all sides of the other set are in this one.
    pub fn contains(self, other: Borders) -> bool
        ensures { result ≡ (bit_and self.0 other.0 == other.0) }
    {
        self.0 & other.0 == other.0
    }
}

impl Flags for Borders {
    type Bits = u8;

    ghost exact = { ⊤ };

    ghost table = { (codes "TOP", 1) ∷ (codes "RIGHT", 2) ∷ (codes "BOTTOM", 4)
        ∷ (codes "LEFT", 8) ∷ [] };

    ghost set_of = { λ borders. borders.0 };

    fn flags<'a>() -> &'a [Flag<Borders>] {
        Borders::FLAGS
    }

    fn bits(&self) -> u8 {
        self.0
    }

    fn from_bits_retain(bits: u8) -> Borders {
        Borders(bits)
    }
}

/// A frame around an area: borders, a title in the top row, and free rows and columns inside.
#[derive(Debug, Drop)]
pub struct Block<'a> {
    pub borders: Borders,
    pub padding: Padding,
    pub title: Option<Line<'a>>,
    pub style: Style,
    pub border_style: Style,
}

impl<'a> Block<'a> {
    ghost use Rattle.textarea_screen.specs.Block.{
      plain_block,
      bordered_block,
      block_view,
      left_inset,
      top_inset,
      inner_width,
      inner_height,
    };
    ghost use Rattle.textarea_screen.specs.Rect.{contains};

    /// Returns a block with no border, no padding and no title, in empty styles.
    pub fn new() -> Block<'a>
        ensures { result ≡ plain_block }
    {
        Block {
            borders: Borders::NONE,
            padding: Padding::ZERO,
            title: None,
            style: Style::new(),
            border_style: Style::new(),
        }
    }

    /// Returns a block with a border at each side, no padding and no title, in empty styles.
    pub fn bordered() -> Block<'a>
        ensures { result ≡ bordered_block }
    {
        Block::new().borders(Borders::ALL)
    }

    /// Returns the block with borders at these sides.
    pub fn borders(self, borders: Borders) -> Block<'a>
        ensures { result ≡ record self.entry { borders = borders } }
    {
        Block { borders, ..self }
    }

    /// Returns the block with this padding between its borders and the inner area.
    pub fn padding(self, padding: Padding) -> Block<'a>
        ensures { result ≡ record self.entry { padding = padding } }
    {
        Block { padding, ..self }
    }

    /// Returns the block with this title.
    pub fn title(self, title: Line<'a>) -> Block<'a>
        ensures { result ≡ record self.entry { title = Some title.entry } }
    {
        Block {
            title: Some(title),
            ..self
        }
    }

    /// Returns the block with this style for all of its cells.
    pub fn style(self, style: Style) -> Block<'a>
        ensures { result ≡ record self.entry { style = style } }
    {
        Block { style, ..self }
    }

    /// Returns the block with this style for its borders.
    pub fn border_style(self, style: Style) -> Block<'a>
        ensures { result ≡ record self.entry { border_style = style } }
    {
        Block {
            border_style: style,
            ..self
        }
    }

    /// Returns the area inside the block. A border takes one row or column of its side, and a title
    /// takes the top row if there is no top border; the padding is inside of these. The result has
    /// no column or no row if the block takes them all.
    pub fn inner(&self, area: Rect) -> Rect
        ensures x { result.x ≡ area.x + min (left_inset (block_view self.now)) area.width }
        ensures y { result.y ≡ area.y + min (top_inset (block_view self.now)) area.height }
        ensures width { result.width ≡ inner_width (block_view self.now) area.width }
        ensures height { result.height ≡ inner_height (block_view self.now) area.height }
        ensures within { (x y : ℕ) → IsTrue (contains result x y) → IsTrue (contains area x y) }
    {
        let has_top = self.borders.contains(Borders::TOP) || self.title.is_some();
        let left = inset(self.borders.contains(Borders::LEFT), self.padding.left);
        let right = inset(self.borders.contains(Borders::RIGHT), self.padding.right);
        let top = inset(has_top, self.padding.top);
        let bottom = inset(self.borders.contains(Borders::BOTTOM), self.padding.bottom);
        Rect {
            x: area.x + left.min(area.width),
            y: area.y + top.min(area.height),
            width: area.width.saturating_sub(left).saturating_sub(right),
            height: area.height.saturating_sub(top).saturating_sub(bottom),
        }
    }

    /// Returns a copy of the block; the owned texts of its title are copied. It allocates nothing if
    /// there is no title.
    pub fn clone(&self) -> Result<Block<'a>, AllocError>
        ensures value { IfOk result (λ block. block_view block ≡ block_view self.now) }
        ensures untitled { self.now.title ≡ None → IsOk result }
    {
        let title = match &self.title {
            Some(title) => Some(title.clone()?),
            None => None,
        };
        Ok(Block {
            borders: self.borders,
            padding: self.padding,
            title,
            style: self.style,
            border_style: self.border_style,
        })
    }
}

impl<'a> Default for Block<'a> {
    ghost use Rattle.textarea_screen.specs.Block.{plain_block};

    ghost is_default = { λ block. block ≡ plain_block };

    /// Returns a block with no border, no padding and no title, in empty styles.
    fn default() -> Block<'a> {
        Block::new()
    }
}

/// Returns the number of rows or columns that a block takes at one side, at most 65535.
fn inset(has_border: bool, padding: u16) -> u16
    ensures { result ≡ min (inset_of has_border padding) 65535 }
{
    u16::from(has_border).saturating_add(padding)
}
