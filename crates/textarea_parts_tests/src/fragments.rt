//! Fragments from texts and back, the text between positions, and the spaces up to a tab stop.
use crate::cases::check_each;
use crate::texts::Place;
use std::alloc::{AllocError, Global};
use std::test::Fail;
use textarea_text::fragment::{copy_fragment, fragment_of, join_with_line_feeds};
use textarea_text::places::clip;
use textarea_text::rows::column_count;
use textarea_text::tab::spaces_to_stop;
use textarea_text::text_slice::between;

/// What is written of a fragment.
#[derive(Clone, Copy)]
enum Written {
    /// All of it, and the number of its lines.
    Whole(&'static str, usize),
    /// The text up to this position.
    Part(Place, &'static str),
}

/// A text, and what is written of the fragment that is made from it.
type Case = (&'static str, Written);

static CASES: [Case; 8] = [
    ("", Written::Whole("", 1)),
    ("a\r\nb\r", Written::Whole("a\nb\r", 2)),
    ("a\r\r\nb", Written::Whole("a\r\nb", 2)),
    ("\n犬\n", Written::Whole("\n犬\n", 3)),
    ("ab\n犬\nef", Written::Part((0, 0), "")),
    ("ab\n犬\nef", Written::Part((0, 1), "a")),
    ("ab\n犬\nef", Written::Part((1, 1), "ab\n犬")),
    ("ab\n犬\nef", Written::Part((2, 1), "ab\n犬\ne")),
];

fn is_joined(alloc: Global, segments: &[String], joined: &str) -> Result<bool, AllocError> {
    Ok(join_with_line_feeds(alloc, segments)?.as_str() == joined)
}

fn is_met(alloc: Global, (input, written): &Case) -> Result<bool, AllocError> {
    let segments = fragment_of(alloc, input)?;
    match *written {
        Written::Whole(text, count) => {
            let copy = copy_fragment(alloc, segments.as_slice())?;
            Ok(copy.len() == count && is_joined(alloc, copy.as_slice(), text)?)
        }
        Written::Part(place, text) => {
            let place = clip(segments.as_slice(), place);
            let segment = between(alloc, segments.as_slice(), (0, 0), place)?;
            is_joined(alloc, segment.as_slice(), text)
        }
    }
}

#[test]
fn fragments_and_texts(rt: HostRuntime) -> Result<(), Fail> {
    check_each(&rt, &CASES, is_met)
}

/// A line, a tab length, and the spaces from the line's end to the tab stop.
type TabStop = (&'static str, u8, u8);

static TAB_STOPS: [TabStop; 6] = [
    ("", 4, 4),
    ("abcd", 4, 4),
    ("a犬", 4, 1),
    ("a\tb", 4, 2),
    ("犬", 1, 1),
    ("abc", 255, 252),
];

fn is_stop((line, tab_length, spaces): TabStop) -> bool {
    tab_length > 0 && spaces_to_stop(line, column_count(line), tab_length) == spaces
}

#[test]
fn tab_stops(rt: HostRuntime) -> Result<(), Fail> {
    check_each(&rt, &TAB_STOPS, |_, stop| Ok(is_stop(*stop)))
}
