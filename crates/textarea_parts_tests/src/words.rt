//! The classes of characters, and the words of lines, worked by hand from the rules.
use crate::cases::check_each;
use std::test::Fail;
use textarea_text::word::{
    CharKind, find_word_exclusive_end_forward, find_word_inclusive_end_forward,
    find_word_start_backward, find_word_start_forward,
};

static CLASSES: [(char, CharKind); 13] = [
    (' ', CharKind::Space),
    ('\t', CharKind::Space),
    ('\u{85}', CharKind::Space),
    ('\u{3000}', CharKind::Space),
    ('\u{200b}', CharKind::Other),
    ('!', CharKind::Punct),
    ('~', CharKind::Punct),
    ('_', CharKind::Other),
    ('a', CharKind::Other),
    ('7', CharKind::Other),
    ('\u{7f}', CharKind::Other),
    ('犬', CharKind::Other),
    ('。', CharKind::Other),
];

/// A line, a start column, and the columns found: the next word's start, the column after a word, a
/// word's last character, the previous word's start.
type Searched = (&'static str, usize, [Option<usize>; 4]);

static SEARCHES: [Searched; 16] = [
    ("ab cd", 0, [Some(3), Some(2), Some(1), None]),
    ("ab cd", 3, [None, None, Some(4), Some(0)]),
    ("ab cd", 99, [None, None, None, Some(3)]),
    ("ab", 2, [None, None, None, Some(0)]),
    ("a_b.c", 0, [Some(3), Some(3), Some(2), None]),
    ("a_b.c", 3, [Some(4), Some(4), Some(3), Some(0)]),
    ("a_b.c", 4, [None, None, Some(4), Some(3)]),
    ("犬 犬x!", 1, [Some(2), Some(4), Some(3), Some(0)]),
    ("犬 犬x!", 5, [None, None, None, Some(4)]),
    ("\t\u{3000}a", 0, [Some(2), None, Some(2), None]),
    ("\t\u{3000}a", 3, [None, None, None, Some(2)]),
    ("a  ", 0, [None, Some(1), Some(0), None]),
    ("a  ", 1, [None, None, None, Some(0)]),
    ("--", 0, [None, None, Some(1), None]),
    ("", 0, [None, None, None, None]),
    ("", 7, [None, None, None, None]),
];

fn is_answered((line, start, answers): &Searched) -> bool {
    let found = [
        find_word_start_forward(line, *start),
        find_word_exclusive_end_forward(line, *start),
        find_word_inclusive_end_forward(line, *start),
        find_word_start_backward(line, *start),
    ];
    found == *answers
}

#[test]
fn classes_and_searches(rt: HostRuntime) -> Result<(), Fail> {
    check_each(&rt, &CLASSES, |_, (c, kind)| {
        Ok(CharKind::new(*c) == *kind)
    })?;
    check_each(&rt, &SEARCHES, |_, searched| Ok(is_answered(searched)))
}
