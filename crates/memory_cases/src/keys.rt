//! Each key with the same modifiers on a new text area, with shortcuts and without, undone and
//! redone. A failed call is compared with a text area that made the calls before it, not with a
//! clone.
use crate::step::{Step, make};
use std::alloc::{AllocError, Global};
use textarea_calls::{Answer, Call};
use textarea_test_support::compare::compare;
use textarea_test_support::end::{Difference, EndReason, same};
use tui_textarea::{Buffer, Input, Key, Rect, TextArea};

/// The lines of each text area.
const LINES: [&str; 6] = ["abc", "def", "ghi", "jkl", "mno", "pqr"];

/// The keys that aren't characters and have no number.
const NAMED: [Key; 19] = [
    Key::Backspace,
    Key::Enter,
    Key::Left,
    Key::Right,
    Key::Up,
    Key::Down,
    Key::Tab,
    Key::Delete,
    Key::Home,
    Key::End,
    Key::PageUp,
    Key::PageDown,
    Key::Esc,
    Key::Copy,
    Key::Cut,
    Key::Paste,
    Key::MouseScrollDown,
    Key::MouseScrollUp,
    Key::Null,
];

/// The number of calls made, and the number of those that returned that they did something.
#[derive(Default, Clone, Copy)]
pub struct CallCounts {
    pub calls: usize,
    agreed: usize,
}

/// Makes the calls of each key. The text has the modifiers, as scripts write them, and the number
/// of calls that must return that they did something.
pub fn judge_keys(alloc: Global, words: &str, made: &mut CallCounts) -> Result<(), EndReason> {
    let mut buffer = Buffer::empty(alloc, Rect::default())?;
    let judged = judge_each(alloc, words, &mut buffer, made);
    drop(buffer);
    judged
}

fn judge_each(
    alloc: Global,
    words: &str,
    buffer: &mut Buffer,
    made: &mut CallCounts,
) -> Result<(), EndReason> {
    let (modifiers, wanted) = words.split_once(' ').unwrap_or((words, ""));
    for character in " !\"#$%&'()*+,-./0123456789:;<=>?@ABCDEFGHIJKLMNOPQRSTUVWXYZ[\\]^_`abcdefghijklmnopqrstuvwxyz{|}~あ🐶".chars()
    {
        judge_key(alloc, Key::Char(character), modifiers, buffer, made)?;
    }
    for number in 0..16u8 {
        judge_key(alloc, Key::F(number), modifiers, buffer, made)?;
    }
    for key in NAMED {
        judge_key(alloc, key, modifiers, buffer, made)?;
    }
    let is_counted = wanted.parse::<usize>().ok() == Some(made.agreed);
    same(is_counted, Difference::Answer)
}

// Makes the calls of a key on a new text area.
fn judge_key(
    alloc: Global,
    key: Key,
    modifiers: &str,
    buffer: &mut Buffer,
    made: &mut CallCounts,
) -> Result<(), EndReason> {
    let input = Input {
        key,
        ctrl: modifiers.contains('c'),
        alt: modifiers.contains('a'),
        shift: modifiers.contains('s'),
    };
    let mut area = TextArea::from_strs(alloc, LINES.into_iter())?;
    let judged = judge_calls(alloc, &mut area, &calls_of(&input), buffer, made);
    drop(area);
    judged
}

fn calls_of(input: &Input) -> [Call<'_>; 6] {
    [
        Call::Input(input),
        Call::Undo,
        Call::Redo,
        Call::InputWithoutShortcuts(input),
        Call::Undo,
        Call::Redo,
    ]
}

fn judge_calls(
    alloc: Global,
    area: &mut TextArea<'_>,
    calls: &[Call<'_>],
    buffer: &mut Buffer,
    made: &mut CallCounts,
) -> Result<(), EndReason> {
    let mut before = 0usize;
    for call in calls {
        match make(area, Step::Call(*call), buffer) {
            Ok(answer) => made.take(&answer),
            Err(_) => return judge_out_of_memory(alloc, area, calls, before, buffer),
        }
        before = before.saturating_add(1);
    }
    Ok(())
}

impl CallCounts {
    // Counts a call and its result.
    fn take(&mut self, answer: &Answer) {
        self.calls = self.calls.saturating_add(1);
        if *answer == Answer::Flag(true) {
            self.agreed = self.agreed.saturating_add(1);
        }
    }
}

// A call ran out of memory: the text area must be like one that made the calls before it.
fn judge_out_of_memory(
    alloc: Global,
    area: &mut TextArea<'_>,
    calls: &[Call<'_>],
    before: usize,
    buffer: &mut Buffer,
) -> Result<(), EndReason> {
    let mut other = TextArea::from_strs(alloc, LINES.into_iter())?;
    let judged = judge_beside(area, &mut other, calls, before, buffer);
    drop(other);
    judged
}

fn judge_beside(
    area: &mut TextArea<'_>,
    other: &mut TextArea<'_>,
    calls: &[Call<'_>],
    before: usize,
    buffer: &mut Buffer,
) -> Result<(), EndReason> {
    for call in calls.iter().take(before) {
        remake(other, *call, buffer)?;
    }
    compare(area, other)?;
    Err(EndReason::RanOut)
}

fn remake(other: &mut TextArea<'_>, call: Call<'_>, buffer: &mut Buffer) -> Result<(), AllocError> {
    let answer = make(other, Step::Call(call), buffer)?;
    drop(answer);
    Ok(())
}
