//! The counts of a text.
use std::fmt;

/// The status if a check failed.
const WRONG: u8 = 4;

/// The counts of frames, calls, carets and failures.
#[derive(Clone, Copy, Default)]
pub struct FrameTally {
    pub frames: usize,
    pub calls: usize,
    /// Visible carets.
    pub displayed: usize,
    /// Frames whose caret must be visible.
    pub promised: usize,
    /// Carets whose hit test gives the cursor.
    pub caret_hit: usize,
    /// Calls and drawings that failed.
    pub failed: usize,
    /// Carets that aren't visible although that is promised.
    pub missing: usize,
    /// Carets outside the inner area, and those whose hit test is wrong although it is promised.
    pub astray: usize,
}

impl FrameTally {
    pub fn status(&self) -> u8 {
        if self.is_right() { 0 } else { WRONG }
    }

    fn is_right(&self) -> bool {
        self.failed == 0 && self.missing == 0 && self.astray == 0
    }
}

impl fmt::Display for FrameTally {
    fn fmt<W: fmt::Write>(&self, f: &mut fmt::Formatter<W>) -> fmt::Result {
        write!(f, "{} frames, {} calls, ", self.frames, self.calls)?;
        write!(f, "carets: {} shown, ", self.displayed)?;
        write!(f, "{} promised, {} hit back", self.promised, self.caret_hit)?;
        if self.is_right() {
            return Ok(());
        }
        write!(f, ", WRONG: {} failed, ", self.failed)?;
        write!(f, "{} missing, {} astray", self.missing, self.astray)
    }
}

/// Adds one, up to the greatest number.
pub fn count(number: &mut usize) {
    *number = number.saturating_add(1);
}
