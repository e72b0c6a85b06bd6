ghost use Rattle.std.specs.Prelude.{⊤, ◌≡◌, ◌==◌, [], ◌∷◌, codes};
ghost use Rattle.std.specs.Int.RustNames.{bit_and};

use bitflags::{Flag, Flags, bitflag_items};

/// Attributes of a text besides its colours, such as bold: a set with one bit for each.
#[derive(Clone, Copy, Debug, Default, PartialEq, Eq)]
pub struct Modifier(pub u16);

bitflag_items! {
    impl Modifier: u16 {
        const BOLD = 1;
        const DIM = 2;
        const ITALIC = 4;
        const UNDERLINED = 8;
        const SLOW_BLINK = 16;
        const RAPID_BLINK = 32;
        const REVERSED = 64;
        const HIDDEN = 128;
        const CROSSED_OUT = 256;
    }
}

impl Modifier {
    ghost use Rattle.textarea_screen.specs.Modifier.{union_of, difference_of};

    /// Returns the modifiers that are in either set.
    pub fn union(self, other: Modifier) -> Modifier
        ensures { result ≡ union_of self other }
    {
        Modifier(self.0 | other.0)
    }

    /// Returns the modifiers of this set that are not in the other.
    pub fn difference(self, other: Modifier) -> Modifier
        ensures { result ≡ difference_of self other }
    {
        Modifier(self.0 & !other.0)
    }

    /// Returns whether all modifiers of the other set are in this one.
    pub fn contains(self, other: Modifier) -> bool
        ensures { result ≡ (bit_and self.0 other.0 == other.0) }
    {
        self.0 & other.0 == other.0
    }
}

impl Flags for Modifier {
    type Bits = u16;

    ghost exact = { ⊤ };

    ghost table = { (codes "BOLD", 1) ∷ (codes "DIM", 2) ∷ (codes "ITALIC", 4)
        ∷ (codes "UNDERLINED", 8) ∷ (codes "SLOW_BLINK", 16) ∷ (codes "RAPID_BLINK", 32)
        ∷ (codes "REVERSED", 64) ∷ (codes "HIDDEN", 128) ∷ (codes "CROSSED_OUT", 256) ∷ [] };

    ghost set_of = { λ modifier. modifier.0 };

    fn flags<'a>() -> &'a [Flag<Modifier>] {
        Modifier::FLAGS
    }

    fn bits(&self) -> u16 {
        self.0
    }

    fn from_bits_retain(bits: u16) -> Modifier {
        Modifier(bits)
    }
}
