// Trials with a text area. One function owns each text area, and the others borrow it.
use crate::fragment_copies::copy_is_independent;
use crate::many_lines::{are_drawn_and_scrolled, lines_of_x};
use crate::quick_start::is_as_described;
use std::alloc::{AllocError, Global};
use tui_textarea::TextArea;

#[derive(Clone, Copy)]
pub enum Trial {
    /// A copy, and then changes of the original.
    Copy,
    /// More lines than the greatest height.
    ManyLines,
    /// The example program of the README.
    QuickStart,
}

impl Trial {
    // Returns the initial text area.
    fn area(self, alloc: Global) -> Result<TextArea<'static>, AllocError> {
        match self {
            Trial::Copy | Trial::QuickStart => TextArea::try_default(alloc),
            Trial::ManyLines => TextArea::new(lines_of_x(alloc)?),
        }
    }

    // Returns whether the trial succeeds.
    fn is_right(self, alloc: Global, area: &mut TextArea<'_>) -> Result<bool, AllocError> {
        match self {
            Trial::Copy => copy_is_independent(area),
            Trial::ManyLines => are_drawn_and_scrolled(alloc, area),
            Trial::QuickStart => is_as_described(area),
        }
    }
}

/// Runs the trial with a new text area, and returns whether it succeeds.
pub fn succeeds(alloc: Global, trial: Trial) -> Result<bool, AllocError> {
    let mut area = trial.area(alloc)?;
    let is_right = trial.is_right(alloc, &mut area);
    drop(area);
    is_right
}
