//! Inputs of the text area, of which a page up goes on at the start of the text.
ghost use Rattle.std.specs.Prelude.{◌≡◌, OnErr, OnOk};
ghost use Rattle.textarea_editor.specs.Draft.{FailsIn, Makes};
ghost use Rattle.textarea_editor.specs.Pages.{input_calls, is_page_up, reaches_start, start_calls};

use crate::draft::Draft;
use std::alloc::AllocError;
use textarea_calls::keys::action_of;
use textarea_calls::{Action, Call};
use textarea_data::cursor::CursorMove;
use textarea_data::input::Input;
use textarea_data::scroll::Scrolling;
use textarea_view::viewport::Viewport;

impl Draft {
    /// Passes an input to the text area. A page up that reaches the start of the text goes on to the
    /// first line, in the cursor's column.
    pub fn take_input(&mut self, input: &Input) -> Result<bool, AllocError>
        ensures ok { OnOk result
            (Makes self.old (input_calls self.old.area.drawing.viewport input.now) self.new) }
        ensures err { OnErr result
            (FailsIn self.old (input_calls self.old.area.drawing.viewport input.now) self.new) }
    {
        let is_start = reaches_start(self.area.viewport(), input);
        self.input(input)?;
        self.go_on_to_start(is_start)
    }

    // Moves the cursor to the first line, or does nothing.
    fn go_on_to_start(&mut self, is_start: bool) -> Result<bool, AllocError>
        ensures ok { OnOk result (Makes self.old (start_calls is_start) self.new) }
        ensures err { OnErr result (FailsIn self.old (start_calls is_start) self.new) }
    {
        if is_start {
            self.make(&[Call::Move(CursorMove::Top)])
        } else {
            self.make(&[])
        }
    }
}

// Returns whether an input scrolls up by a page, and the first row comes into view, or is there
// already.
fn reaches_start(viewport: &Viewport, input: &Input) -> bool
    ensures { result ≡ reaches_start viewport.now input.now }
{
    let (top, _, _, height) = viewport.rect();
    is_page_up(action_of(input)) && top <= height
}

fn is_page_up(action: Action) -> bool
    ensures { result ≡ is_page_up action }
{
    matches!(action, Action::ScrollWithShift(Scrolling::PageUp, _))
}
