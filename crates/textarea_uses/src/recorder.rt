//! A recorder of inputs. Its user can rely on it that a replay on a copy of the text area, as it was
//! when the recording began, gives the same text area, where memory doesn't run out.
ghost use Rattle.std.specs.Prelude.{◌≡◌, OnErr, OnOk};
ghost use Rattle.textarea_uses.specs.Recorder.{IsLeft, IsMadeOutOfMemory};
ghost use Rattle.tui_textarea.specs.ActionTexts.{IsAfterAllTimed, IsAfterTimed};
ghost use Rattle.tui_textarea.specs.State.{State};

use std::alloc::{AllocError, Global};
use std::time::Duration;
use tui_textarea::input_laws::replays_agree;
use tui_textarea::{Input, TextArea};

/// The inputs that were recorded, each with its time.
#[derive(Drop)]
pub struct Recorder {
    steps: Vec<(Input, Duration)>,
}

impl Recorder {
    /// Returns a recorder without inputs.
    pub fn new(alloc: Global) -> Recorder
        ensures { (area : State) → IsAfterAllTimed area result.steps.items area }
    {
        Recorder {
            steps: Vec::new(alloc),
        }
    }

    /// Makes an input at a time, and records it. Out of memory nothing is recorded, and the text
    /// area is as before, or only its time is set and, if the input inserts, its selection removed.
    pub fn take(
        &mut self,
        area: &mut TextArea<'_>,
        input: Input,
        now: Duration,
    ) -> Result<(), AllocError>
        ensures ok { OnOk result ((start : State) →
            IsAfterAllTimed start self.old.steps.items area.old →
            IsAfterAllTimed start self.new.steps.items area.new) }
        ensures recorded { OnErr result (self.new.steps.items ≡ self.old.steps.items) }
        ensures err { OnErr result (IsLeft area.old (input, now) area.new) }
    {
        replays_agree();
        self.steps.reserve(1)?;
        let step = (input, now);
        make(area, &step)?;
        let _ = self.steps.push(step);
        Ok(())
    }

    /// Makes the recorded inputs, each at its time. On a text area that is as it was when the
    /// recording began, this gives the text area as it was after the last recorded input.
    pub fn replay(&self, area: &mut TextArea<'_>) -> Result<(), AllocError>
        ensures { OnOk result ((recorded : State) →
            IsAfterAllTimed area.old self.now.steps.items recorded → area.new ≡ recorded) }
    {
        replays_agree();
        for step in &self.steps {
            make(area, step)?;
        }
        Ok(())
    }
}

// Makes an input at its time, and returns whether the text changed.
fn make(area: &mut TextArea<'_>, step: &(Input, Duration)) -> Result<bool, AllocError>
    ensures ok { OnOk result (IsAfterTimed area.old step.now area.new) }
    ensures err { OnErr result (IsMadeOutOfMemory area.old step.now area.new) }
{
    let (input, now) = step;
    area.set_now(*now);
    area.input(Input { ..*input })
}
