//! Positions of a text, runs of spaces, and the digits of a number.

pub use textarea_text::util::{Pos, spaces};
pub use textarea_wrap::layout::num_digits;
