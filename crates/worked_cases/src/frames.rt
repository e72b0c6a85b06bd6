//! Frames of hostile texts, in many areas and settings and after each call.
//!
//! The cases of a section are blocks of lines. The first has the calls that are made on each text, as
//! script commands or test commands (`textarea_test_support`). Each further one is a text: a line with its
//! name, a space and the width of its widest grapheme cluster except tabs, and a script that writes
//! it. A line is printed for each text: the numbers of frames, calls, visible carets, promised
//! carets, carets that hit tests map to the cursor, and failures.
//!
//! No call may fail. A visible caret must be in the inner area, and its hit test give the cursor if
//! all characters of the cursor's visual row have a width. A promised caret must be visible.
mod asked;
mod caret;
mod judge;
mod setting;
mod tally;
mod tour;

use crate::frames::tour::tour;
use crate::{NOT_JUDGED, STREAM_FAILED};

/// Judges the texts of a section, and prints the counts of each. Returns the exit status.
pub fn tell(rt: &(impl Print + AllocGlobal), section: &str) -> u8 {
    let (asked, texts) = section.split_once("\n\n").unwrap_or((section, ""));
    let mut status = 0;
    for text in texts.split("\n\n") {
        status = status.max(tell_text(rt, asked, text));
    }
    status
}

// Judges a text, and prints its counts.
fn tell_text(rt: &(impl Print + AllocGlobal), asked: &str, text: &str) -> u8 {
    let (head, lines) = text.split_once('\n').unwrap_or((text, ""));
    let (name, widest) = head.split_once(' ').unwrap_or((head, ""));
    let Ok(widest) = widest.parse() else {
        return NOT_JUDGED;
    };
    let Ok(tally) = tour(rt.alloc(), lines, widest, asked) else {
        return NOT_JUDGED;
    };
    if println!(rt; "{name}: {tally}").is_err() {
        return STREAM_FAILED;
    }
    tally.status()
}
