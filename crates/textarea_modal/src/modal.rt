//! A modal editor, and its runs of inputs.
ghost use Rattle.std.specs.Prelude.{◌≡◌, IfOk, OnErr, OnOk};
ghost use Rattle.textarea_modal.specs.Calls.{IsReaction, OfStep};
ghost use Rattle.textarea_modal.specs.Runs.{AllMade, EndsAs, OneRunsOut};
ghost use Rattle.textarea_modal.specs.Table.{step};

mod calls;

use crate::modal::calls::make_step;
pub use crate::modal::calls::pass_on;
use crate::mode::Mode;
use crate::step::Reaction;
use crate::steps::reaction;
use std::alloc::AllocError;
use std::marker::Model;
use textarea_data::input::Input;
use tui_textarea::TextArea;

/// Why a run of inputs ended.
#[derive(Clone, Copy, Debug, PartialEq, Eq)]
pub enum ModalStop {
    /// All inputs were used.
    End,
    /// An input quit.
    Quit,
    /// A call ran out of memory.
    Memory,
}

/// The end of a run of inputs.
#[derive(Clone, Copy, Debug, PartialEq, Eq)]
pub struct ModalEnd {
    /// The number of used inputs, including one that quit, but not one whose call failed.
    pub taken: usize,
    /// Why it ended.
    pub stop: ModalStop,
}

/// A modal editor: it makes calls on a text area. It stores only its mode, and allocates nothing.
#[derive(Clone, Copy, Debug, PartialEq, Eq)]
pub struct Modal {
    mode: Mode,
}

impl Model for Modal {
    ghost use Rattle.textarea_modal.specs.declared.mode.Mode.{Mode};

    ghost Value = { Mode };

    ghost view = { λ modal. modal.mode };

    ghost inverse = { λ mode. record { mode = mode } };
}

impl Modal {
    /// Returns a modal editor in Normal.
    pub fn new() -> Modal
        ensures { result ≡ Mode.Normal }
    {
        Modal { mode: Mode::Normal }
    }

    pub fn mode(&self) -> Mode
        ensures { result ≡ self.now }
    {
        self.mode
    }

    /// Takes the inputs one after another, until one quits or a call runs out of memory. Each input
    /// makes the calls that the table has in the current mode, and enters the table's mode.
    ///
    /// The text area is then in the state after those calls, up to the one that failed, if one did.
    /// If a call failed, the mode is the one before its input.
    pub fn run(&mut self, area: &mut TextArea<'_>, inputs: &[Input]) -> ModalEnd
        ensures { EndsAs area.old self.old inputs.now area.new self.new result.taken result.stop }
    {
        for (index, input) in inputs.iter().enumerate() {
            match self.take(area, input) {
                Ok(false) => {}
                Ok(true) => {
                    return ModalEnd {
                        taken: index + 1,
                        stop: ModalStop::Quit,
                    };
                }
                Err(_) => {
                    return ModalEnd {
                        taken: index,
                        stop: ModalStop::Memory,
                    };
                }
            }
        }
        ModalEnd {
            taken: inputs.len(),
            stop: ModalStop::End,
        }
    }

    /// Returns what an input does in the current mode.
    pub fn reaction(&self, input: &Input) -> Reaction
        ensures { IsReaction self.now input.now result }
    {
        reaction(self.mode, input)
    }

    /// Makes the calls of a reaction that was found in the current mode, enters the mode after them,
    /// and returns whether it quits. A call that runs out of memory is the last one that is tried;
    /// the mode then stays.
    pub fn react(&mut self, area: &mut TextArea<'_>, reaction: Reaction) -> Result<bool, AllocError>
        ensures ok { OnOk result
            (OfStep self.old reaction (λ step. AllMade area.old step.calls area.new)) }
        ensures mode { OnOk result (OfStep self.old reaction (λ step. self.new ≡ step.mode)) }
        ensures quits { IfOk result
            (λ quits. OfStep self.old reaction (λ step. quits ≡ step.quits)) }
        ensures err { OnErr result
            (OfStep self.old reaction (λ step. OneRunsOut area.old step.calls area.new)) }
        ensures stays { OnErr result (self.new ≡ self.old) }
    {
        match reaction {
            Reaction::Step(step) => {
                make_step(area, &step)?;
                self.mode = step.mode;
                Ok(step.quits)
            }
            Reaction::PassOn(action) => {
                pass_on(area, action)?;
                Ok(false)
            }
        }
    }

    // Takes one input: makes its calls, enters the mode after them, and returns whether it quits.
    fn take(&mut self, area: &mut TextArea<'_>, input: &Input) -> Result<bool, AllocError>
        ensures ok { OnOk result
            (AllMade area.old (step self.old input.now).calls area.new) }
        ensures mode { OnOk result (self.new ≡ (step self.old input.now).mode) }
        ensures quits { IfOk result (λ quits. quits ≡ (step self.old input.now).quits) }
        ensures err { OnErr result
            (OneRunsOut area.old (step self.old input.now).calls area.new) }
        ensures stays { OnErr result (self.new ≡ self.old) }
    {
        let reaction = self.reaction(input);
        self.react(area, reaction)
    }
}
