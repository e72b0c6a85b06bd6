// Calls that `TextArea` makes with a copy of an argument, or whose result becomes an `Answer`.
ghost use Rattle.std.specs.Prelude.{◌≡◌, ◌≢◌, ◌<◌, [], length, IfOk, OnErr, OnOk, Some};
ghost use Rattle.textarea_screen.specs.Block.{block_view};
ghost use Rattle.textarea_screen.specs.Text.{text_view};
ghost use Rattle.textarea_search.specs.PlainTexts.{text_pattern};
ghost use Rattle.textarea_text.specs.Text.{lines_of};
ghost use Rattle.tui_textarea.specs.CallResults.{call_result};
ghost use Rattle.tui_textarea.specs.Calls.{ranges_result, rejected_ranges, with_ranges_if};
ghost use Rattle.tui_textarea.specs.Guards.{other_lines_set};
ghost use Rattle.tui_textarea.specs.Measure.{with_surround};
ghost use Rattle.tui_textarea.specs.Outcomes.{after_pattern, IsPatternCallResult};
ghost use Rattle.tui_textarea.specs.Patterns.{IsNewPattern, IsPatternResult};

use std::alloc::AllocError;
use textarea_calls::Answer;
use textarea_data::range::AtomicRange;
use textarea_screen::screen::{Block, Text};
use textarea_search::search::SearchError;
use textarea_text::fragment::copy_fragment;
use tui_textarea::TextArea;

// Replaces the lines with a copy of these lines.
pub fn set_lines(
    area: &mut TextArea<'_>,
    lines: &[String],
    cursor: (usize, usize),
) -> Result<(), AllocError>
    requires some { 0 < length lines.now }
    ensures ok { OnOk result (area.new ≡ other_lines_set area.old (lines_of lines.now) cursor) }
    ensures err { OnErr result (area.new ≡ area.old) }
{
    let alloc = area.allocator();
    area.set_lines(copy_fragment(alloc, lines)?, cursor)
}

// Sets a copy of the block as the border around the text.
pub fn set_block(area: &mut TextArea<'_>, block: &Block<'static>) -> Result<(), AllocError>
    ensures ok { OnOk result
        (area.new ≡ with_surround area.old
        (record area.old.surround { block = Some (block_view block.now) })) }
    ensures err { OnErr result (area.new ≡ area.old) }
{
    area.set_block(block.clone()?);
    Ok(())
}

// Sets a copy of the text as the placeholder, which is drawn while the text area is empty.
pub fn set_styled_placeholder(
    area: &mut TextArea<'_>,
    text: &Text<'static>,
) -> Result<(), AllocError>
    ensures ok { OnOk result
        (area.new ≡ with_surround area.old
        (record area.old.surround { placeholder = text_view text.now })) }
    ensures err { OnErr result (area.new ≡ area.old) }
{
    area.set_styled_placeholder(text.clone()?);
    Ok(())
}

// Sets a copy of the ranges, or returns the rejected ones.
pub fn try_set_atomic_ranges(
    area: &mut TextArea<'_>,
    ranges: &[AtomicRange],
) -> Result<Answer, AllocError>
    ensures answer { IfOk result
        (λ answer. call_result answer ≡ ranges_result (rejected_ranges area.old ranges.now)) }
    ensures ok { OnOk result
        (area.new ≡ with_ranges_if (rejected_ranges area.old ranges.now) area.old ranges.now) }
    ensures err { OnErr result (area.new ≡ area.old) }
{
    let copies = ranges.to_vec(area.allocator())?;
    set_ranges(area, copies)
}

// Sets the ranges, or returns the rejected ones.
fn set_ranges(area: &mut TextArea<'_>, ranges: Vec<AtomicRange>) -> Result<Answer, AllocError>
    ensures answer { IfOk result
        (λ answer. call_result answer ≡ ranges_result (rejected_ranges area.old ranges.items)) }
    ensures ok { OnOk result
        (area.new ≡ with_ranges_if (rejected_ranges area.old ranges.items) area.old ranges.items) }
    ensures err { OnErr result (area.new ≡ area.old) }
{
    match area.try_set_atomic_ranges(ranges)? {
        Ok(()) => Ok(Answer::Done),
        Err(error) => Ok(Answer::Rejected(error.rejected)),
    }
}

// Sets the search pattern, or returns that it is rejected.
pub fn set_search_pattern(area: &mut TextArea<'_>, pattern: &str) -> Result<Answer, AllocError>
    ensures answer { IfOk result
        (λ answer. IsPatternCallResult area.old pattern.now (call_result answer)) }
    ensures ok { IfOk result
        (λ answer. area.new ≡ after_pattern area.old pattern.now (call_result answer)) }
    ensures err { OnErr result (area.new ≡ area.old) }
    ensures may { OnErr result (IsNewPattern area.old pattern.now) }
{
    pattern_result(area.set_search_pattern(pattern))
}

// Sets the pattern of a plain text, or returns that it is rejected.
pub fn set_search_text(
    area: &mut TextArea<'_>,
    text: &str,
    ignore_case: bool,
    whole_word: bool,
) -> Result<Answer, AllocError>
    ensures answer { IfOk result (λ answer. IsPatternCallResult area.old
        (text_pattern text.now ignore_case whole_word) (call_result answer)) }
    ensures ok { IfOk result (λ answer. area.new ≡ after_pattern area.old
        (text_pattern text.now ignore_case whole_word) (call_result answer)) }
    ensures err { OnErr result (area.new ≡ area.old) }
    ensures may { OnErr result (text.now ≢ []) }
{
    pattern_result(area.set_search_text(text, ignore_case, whole_word))
}

// The result of setting a pattern: done, rejected with an error of `regex`, or out of memory.
fn pattern_result(outcome: Result<(), SearchError>) -> Result<Answer, AllocError>
    ensures { IsPatternResult outcome result }
{
    match outcome {
        Ok(()) => Ok(Answer::Done),
        Err(SearchError::Pattern(_)) => Ok(Answer::PatternRejected),
        Err(SearchError::Memory(error)) => Err(error),
    }
}
