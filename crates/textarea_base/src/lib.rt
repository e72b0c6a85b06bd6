//! The base of a text editor: text as lines and its history, words, keys, wrapping, screen types
//! and search. Each is proved in its own crate and listed here.
#![tactic(auto)]

pub use textarea_data::{input, scroll};
pub use textarea_history::history;
pub use textarea_screen::screen;
pub use textarea_search::search;
pub use textarea_text::word;
pub use textarea_wrap::{layout, wrap};

/// Positions, spaces, and the digits of a number.
pub mod util {
    pub use textarea_text::util::{Pos, spaces};
    pub use textarea_wrap::layout::num_digits;
}
