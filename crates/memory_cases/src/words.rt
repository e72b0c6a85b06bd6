//! Lines of cases that aren't script commands: test commands, named scripts, and other steps.
use crate::step::Step;
use textarea_test_support::words::{Borrows, call_of};

/// A script that writes a text with edits of all kinds, and undoes two of them, in one run.
const EDITED: &str = r"insert_str one two\nthree four\n\nfive
insert_char a
delete_word
insert_newline
delete_newline
insert_tab
jump 1 3
delete_str 5
insert_str x\ny
undo
undo
set_yank_text p\nq";

/// A script that wraps lines, shows line numbers and draws.
const WRAPPED: &str = "set_wrap_mode Word
line_numbers true
render 0 0 12 6";

/// A script that selects from one line to the next.
const SELECTED: &str = "jump 0 2
start_selection
jump 1 2";

/// Returns the script of a word. Its calls are made in one run.
pub fn script_of(word: &str) -> Option<&'static str> {
    match word {
        "edited" => Some(EDITED),
        "wrapped" => Some(WRAPPED),
        "selected" => Some(SELECTED),
        _ => None,
    }
}

/// Returns the step of a line.
pub fn step_of<'a>(words: &'a str, borrows: &'a Borrows) -> Option<Step<'a>> {
    Some(match words {
        "set_atomic_ranges" => Step::SetAtomicRanges,
        "clone" => Step::Clone,
        "try_default" => Step::Default,
        "new" => Step::New,
        "from_strs" => Step::FromStrs,
        "from_strings" => Step::FromStrings,
        "from_text" => Step::FromText,
        "spans" => Step::Spans,
        "matches" => Step::Matches,
        _ => Step::Call(call_of(words, borrows)?),
    })
}
