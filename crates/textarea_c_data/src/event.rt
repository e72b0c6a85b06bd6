ghost use Rattle.std.specs.Prelude.{◌≡◌};
ghost use Rattle.textarea_terminal.specs.InputEvent.{value_of};
ghost use Rattle.textarea_c_data.specs.Events.{button_number, event_kind, mouse_button, mouse_number, plain_event, with_mouse};

use crate::input::CInput;
use textarea_terminal::input;
use textarea_terminal::input::{Mouse, MouseButton, MouseKind};

/// An event that a terminal reports. Its kind is one of `TA_EVENT_..`, and fields that a kind doesn't
/// name are 0.
///
/// - `TA_EVENT_INPUT`: `input`, for `ta_input`.
/// - `TA_EVENT_PASTE`: `bytes`, the length of the text, which `ta_decoder_pasted` returns.
/// - `TA_EVENT_MOUSE`: `mouse`, one of `TA_MOUSE_..`; `button`, one of `TA_BUTTON_..` or the number of a
///   further one, from 8 on; the cell's `column` and `row`, from 0; and the modifiers in `input`.
/// - `TA_EVENT_SIZE`: the numbers of columns and rows, in `column` and `row`.
/// - `TA_EVENT_CURSOR`: the `column` and `row` of the cursor, from 0.
#[repr(C)]
#[derive(Clone, Copy, Debug, PartialEq, Eq)]
pub struct CEvent {
    pub kind: u32,
    pub input: CInput,
    pub mouse: u32,
    pub button: u32,
    pub column: u16,
    pub row: u16,
    pub bytes: usize,
}

impl CEvent {
    /// Returns the struct for this event.
    pub fn of(event: &input::Event) -> CEvent
        ensures { result ≡ plain_event (value_of event.now) }
    {
        let blank = CEvent {
            kind: kind_of(event),
            input: CInput::blank(),
            mouse: 0,
            button: 0,
            column: 0,
            row: 0,
            bytes: 0,
        };
        match event {
            input::Event::Input(input) => CEvent {
                input: CInput::of(input),
                ..blank
            },
            input::Event::Paste(text) => CEvent {
                bytes: text.len(),
                ..blank
            },
            input::Event::Mouse(mouse) => with_mouse(blank, *mouse),
            input::Event::Size { columns, rows } => CEvent {
                column: *columns,
                row: *rows,
                ..blank
            },
            input::Event::Cursor { column, row } => CEvent {
                column: *column,
                row: *row,
                ..blank
            },
            _ => blank,
        }
    }
}

// Returns the number of an event's kind.
fn kind_of(event: &input::Event) -> u32
    ensures { result ≡ event_kind (value_of event.now) }
{
    match event {
        input::Event::Unknown => 0,
        input::Event::Input(_) => 1,
        input::Event::Paste(_) => 2,
        input::Event::Mouse(_) => 3,
        input::Event::Size { .. } => 4,
        input::Event::Cursor { .. } => 5,
        input::Event::FocusGained => 6,
        input::Event::FocusLost => 7,
    }
}

// Returns the event with a report of a mouse.
fn with_mouse(event: CEvent, mouse: Mouse) -> CEvent
    ensures { result ≡ with_mouse mouse event }
{
    CEvent {
        input: CInput {
            ctrl: mouse.ctrl,
            alt: mouse.alt,
            shift: mouse.shift,
            ..event.input
        },
        mouse: number_of(mouse.kind),
        button: button_in(mouse.kind),
        column: mouse.column,
        row: mouse.row,
        ..event
    }
}

// Returns the number of what a mouse did.
fn number_of(kind: MouseKind) -> u32
    ensures { result ≡ mouse_number kind }
{
    match kind {
        MouseKind::Press(_) => 0,
        MouseKind::Release(_) => 1,
        MouseKind::Drag(_) => 2,
        MouseKind::Move => 3,
        MouseKind::ReleaseAny => 4,
        MouseKind::WheelLeft => 5,
        MouseKind::WheelRight => 6,
    }
}

// Returns the number of the button with which a mouse did something, 0 if there is none.
fn button_in(kind: MouseKind) -> u32
    ensures { result ≡ mouse_button kind }
{
    match kind {
        MouseKind::Press(button) | MouseKind::Release(button) | MouseKind::Drag(button) => {
            button_of(button)
        }
        _ => 0,
    }
}

// Returns the number of a button.
fn button_of(button: MouseButton) -> u32
    ensures { result ≡ button_number button }
{
    match button {
        MouseButton::Left => 0,
        MouseButton::Middle => 1,
        MouseButton::Right => 2,
        MouseButton::Other(number) => u32::from(number),
    }
}
