//! Events as texts.

use std::alloc::AllocError;
use std::fmt::Write;
use textarea_data::input::Input;
use textarea_terminal::input::Event;

fn push_input(text: &mut String, input: &Input) -> Result<(), AllocError> {
    if input.ctrl {
        text.push_str("ctrl ")?;
    }
    if input.alt {
        text.push_str("alt ")?;
    }
    if input.shift {
        text.push_str("shift ")?;
    }
    let key = input.key;
    write!(text, "{key:?}")
}

fn push_event(text: &mut String, event: &Event) -> Result<(), AllocError> {
    text.push_str("; ")?;
    match event {
        Event::Input(input) => push_input(text, input),
        _ => write!(text, "{event:?}"),
    }
}

/// Adds the events, each after a semicolon and a blank.
pub fn push_events(text: &mut String, events: &[Event]) -> Result<(), AllocError> {
    for event in events {
        push_event(text, event)?;
    }
    Ok(())
}
