// Makes a list of calls, one after another.
ghost use Rattle.std.specs.Prelude.{◌≡◌, ◌≤◌, [], length, vec_capacity, All};
ghost use Rattle.textarea_calls.specs.Possible.{CanBeMade};
ghost use Rattle.tui_textarea.specs.ChangesOverCalls.{ChangesOfRun};
ghost use Rattle.tui_textarea.specs.RangesOverCalls.{RangesOfRun};
ghost use Rattle.tui_textarea.specs.Run.{Run};
ghost use Rattle.tui_textarea.specs.Units.{IsSettled};

use crate::perform::perform;
use textarea_calls::{Answer, Call};
use textarea_screen::screen::Buffer;
use tui_textarea::TextArea;
use tui_textarea::laws::is_sound;
use tui_textarea::outcomes::laws::{
    changes_follow_each_run, ranges_follow_each_run, settled_runs_stay,
};

/// The end of a run of calls.
#[derive(Drop)]
pub struct RunEnd {
    /// The results of the calls that were made, in their order.
    pub answers: Vec<Answer>,
    /// The index of the call that ran out of memory and ended the run, if one did.
    pub refused: Option<usize>,
}

/// Makes the calls one after another, until one runs out of memory. A call may be an input. Calls
/// that draw do so into the buffer; other calls don't change it. The calls and their results
/// determine the state after them (`tui_textarea::outcomes::laws::one_end`).
///
/// After any list of calls and inputs, the text, cursor, selection, yank, ranges and both history
/// lists are those of one flat list of characters and breaks changed by nonempty splices, and the
/// visual rows, measured height, drawn cells, caret and hit tests are those of a layout computed
/// anew from text, cursor, highlights, settings, viewport and last area.
///
/// Each range covers the same characters as one of those that a call of the list set last, or else of
/// those at the start, all in one line. It is one of these, moved, or of those that an undo or a redo
/// gave back. Outside undo, redo and `set_lines` each splice takes a range completely or not at all,
/// and no insertion is strictly inside one. A range is dropped only by a removal that takes it
/// completely, by an undo or a redo whose splice overlaps it or is strictly inside it, or that gives
/// others back, by `set_lines`, by `clear_atomic_ranges`, and by ranges that a call sets.
///
/// If no call begins or ends the log of changes, those that the calls return, and after them those in
/// the log at the end, follow those in the log at the start, and the further ones, applied one after
/// another to the text at the start, give the text at the end.
///
/// If the cursor goes by clusters, neither a cluster nor an atomic range strictly contains it or the
/// selection's beginning after the list, if none did before it.
///
/// Each `Call::SetLines` needs at least one line. Memory for the results is reserved first. If that
/// fails, no call is made and the index of the failed call is 0.
pub fn run(area: &mut TextArea<'_>, calls: &[Call<'_>], buffer: &mut Buffer) -> RunEnd
    requires { All CanBeMade calls.now }
    ensures led { Run area.old buffer.old calls.now result.answers.items result.refused area.new
        buffer.new }
    ensures ranges { RangesOfRun area.old buffer.old calls.now result.answers.items area.new }
    ensures changes { ChangesOfRun area.old calls.now result.answers.items area.new }
    ensures settled { IsSettled area.old → IsSettled area.new }
{
    is_sound(area);
    ranges_follow_each_run();
    changes_follow_each_run();
    settled_runs_stay();
    let mut answers = Vec::new(area.allocator());
    if answers.try_reserve(calls.len()).is_err() {
        return RunEnd {
            answers,
            refused: Some(0),
        };
    }
    make_all(area, calls, buffer, answers)
}

// Makes the calls in turn, until one runs out of memory. Memory for their results is reserved.
fn make_all(
    area: &mut TextArea<'_>,
    calls: &[Call<'_>],
    buffer: &mut Buffer,
    mut answers: Vec<Answer>,
) -> RunEnd
    requires each { All CanBeMade calls.now }
    requires none { answers.items ≡ [] }
    requires room { length calls.now ≤ vec_capacity answers }
    ensures { Run area.old buffer.old calls.now result.answers.items result.refused area.new
        buffer.new }
{
    for (index, call) in calls.iter().enumerate() {
        match perform(area, *call, buffer) {
            Ok(answer) => {
                let _ = answers.push(answer);
            }
            Err(_) => {
                return RunEnd {
                    answers,
                    refused: Some(index),
                };
            }
        }
    }
    RunEnd {
        answers,
        refused: None,
    }
}
