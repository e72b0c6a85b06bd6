//! Steps on a text area: calls, and other work that can run out of memory.
use crate::components::{matches_of, spans_of};
use std::alloc::AllocError;
use textarea_calls::{Answer, Call};
use textarea_run::perform::perform;
use textarea_text::fragment::copy_fragment;
use tui_textarea::{Buffer, Input, Key, TextArea};

/// One step.
#[derive(Clone, Copy)]
pub enum Step<'a> {
    /// A call.
    Call(Call<'a>),
    /// `TextArea::set_atomic_ranges`, of the ranges that are set.
    SetAtomicRanges,
    /// `TextArea::clone`
    Clone,
    /// `TextArea::try_default`
    Default,
    /// `TextArea::new`, of copies of the lines.
    New,
    /// `TextArea::from_strs`, of the lines.
    FromStrs,
    /// `TextArea::from_strings`, of copies of the lines.
    FromStrings,
    /// `TextArea::from_text`, of the text.
    FromText,
    /// A line with highlights, as spans.
    Spans,
    /// The matches of a pattern in a line.
    Matches,
}

impl Step<'_> {
    /// Returns whether the step inserts at the cursor, so that it removes a selection first.
    pub fn inserts(&self) -> bool {
        match self {
            Step::Call(call) => match call {
                Call::InsertChar(_)
                | Call::InsertStr(_)
                | Call::InsertPasted(_)
                | Call::InsertNewline
                | Call::InsertTab
                | Call::Paste => true,
                Call::Input(input) | Call::InputWithoutShortcuts(input) => is_inserting(input),
                _ => false,
            },
            _ => false,
        }
    }
}

// Whether an input asks for an insertion.
fn is_inserting(input: &Input) -> bool {
    match input.key {
        Key::Enter | Key::Paste => true,
        Key::Char('m' | 'y') => !input.alt,
        Key::Char(_) | Key::Tab => !input.ctrl && !input.alt,
        _ => false,
    }
}

/// Makes a step, which draws into the buffer. A text area that it makes is dropped, and the result
/// is the number of its lines.
pub fn make(
    area: &mut TextArea<'_>,
    step: Step<'_>,
    buffer: &mut Buffer,
) -> Result<Answer, AllocError> {
    match step {
        Step::Call(call) => make_call(area, call, buffer),
        Step::SetAtomicRanges => set_atomic_ranges(area),
        Step::Spans => Ok(Answer::Text(spans_of(area.allocator())?)),
        Step::Matches => Ok(Answer::Text(matches_of(area.allocator())?)),
        _ => lines_of_another(area, step),
    }
}

// Makes a call, if it can be made.
fn make_call(
    area: &mut TextArea<'_>,
    call: Call<'_>,
    buffer: &mut Buffer,
) -> Result<Answer, AllocError> {
    if call.can_be_made() {
        perform(area, call, buffer)
    } else {
        Ok(Answer::Done)
    }
}

// Sets the ranges that are set already.
fn set_atomic_ranges(area: &mut TextArea<'_>) -> Result<Answer, AllocError> {
    let alloc = area.allocator();
    let ranges = area.atomic_ranges().to_vec(alloc)?;
    area.set_atomic_ranges(ranges)?;
    Ok(Answer::Done)
}

fn lines_of_another(area: &TextArea<'_>, step: Step<'_>) -> Result<Answer, AllocError> {
    let other = another(area, step)?;
    let count = other.lines().len();
    drop(other);
    Ok(Answer::Number(count))
}

// A clone of the text area, or for other steps one with its lines or, by default, an empty one.
fn another<'a>(area: &TextArea<'a>, step: Step<'_>) -> Result<TextArea<'a>, AllocError> {
    let lines = area.lines();
    let alloc = *lines[0].allocator();
    match step {
        Step::Clone => area.clone(),
        Step::New => TextArea::new(copy_fragment(alloc, lines)?),
        Step::FromStrs => TextArea::from_strs(alloc, lines.iter().map(|line| line.as_str())),
        Step::FromStrings => TextArea::from_strings(
            alloc,
            copy_fragment(alloc, lines)?.into_iter(),
        ),
        Step::FromText => TextArea::from_text(alloc, area.text()?.as_str()),
        _ => TextArea::try_default(alloc),
    }
}
