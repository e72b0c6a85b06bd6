//! A modal editor on a text area: a table of what each key does in each mode, and runs of keys.
#![tactic(auto)]

pub mod modal;
pub mod mode;
pub mod step;
pub mod steps;

pub use crate::mode::{Mode, Op};
pub use crate::step::Reaction;
pub use modal::{Modal, ModalEnd, ModalStop};
