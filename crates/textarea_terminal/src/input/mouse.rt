//! Mouse reports (xterm, "Mouse Tracking"): of mode 1006 (SGR), and of the older ones.

ghost use Rattle.std.specs.Prelude.{◌≡◌, ◌<◌, Some};
ghost use Rattle.textarea_terminal.specs.InputEvent.{unit_value};
ghost use Rattle.textarea_terminal.specs.InputMouse.{has, button_of, mouse_kind, at_cell, with_code, wheel_event, button_event, mouse_at, mouse_event, old_mouse_event, raised_mouse_event};
ghost use Rattle.textarea_terminal.specs.InputParameter.{clamped_to_u16};

use crate::input::event::{Mouse, MouseButton, MouseKind, Unit};
use crate::input::parameter::clamped_to_u16;
use textarea_data::input::{Input, Key};

// Whether a code has a bit.
fn has(code: u32, bit: u32) -> bool
    ensures { result ≡ has code bit }
{
    code & bit != 0
}

fn button(code: u32) -> Option<MouseButton>
    ensures { result ≡ button_of code }
{
    let low = (code & 3) as u8;
    if has(code, 128) {
        return Some(MouseButton::Other(low + 8));
    }
    match low {
        0 => Some(MouseButton::Left),
        1 => Some(MouseButton::Middle),
        2 => Some(MouseButton::Right),
        _ => None,
    }
}

fn kind(button: Option<MouseButton>, moved: bool, down: bool) -> Option<MouseKind>
    ensures { result ≡ mouse_kind button moved down }
{
    match (button, down, moved) {
        (Some(button), true, true) => Some(MouseKind::Drag(button)),
        (Some(button), true, false) => Some(MouseKind::Press(button)),
        (Some(button), false, false) => Some(MouseKind::Release(button)),
        (None, true, true) => Some(MouseKind::Move),
        _ => None,
    }
}

// A step of the wheel up or down.
fn wheel_key(code: u32, key: Key) -> Unit
    ensures { unit_value result ≡ with_code code key }
{
    Unit::Input(Input {
        key,
        ctrl: has(code, 16),
        alt: has(code, 8),
        shift: has(code, 4),
    })
}

// What a mouse did in a cell.
fn at_cell(code: u32, column: u32, row: u32, kind: MouseKind) -> Unit
    requires column { 0 < column }
    requires row { 0 < row }
    ensures { unit_value result ≡ at_cell code column row (Some kind) }
{
    Unit::Mouse(Mouse {
        kind,
        column: clamped_to_u16(column) - 1,
        row: clamped_to_u16(row) - 1,
        ctrl: has(code, 16),
        alt: has(code, 8),
        shift: has(code, 4),
    })
}

fn read_wheel(code: u32, column: u32, row: u32, down: bool) -> Unit
    requires column { 0 < column }
    requires row { 0 < row }
    ensures { unit_value result ≡ wheel_event code column row down }
{
    if !down {
        return Unit::Unknown;
    }
    match code & 3 {
        0 => wheel_key(code, Key::MouseScrollUp),
        1 => wheel_key(code, Key::MouseScrollDown),
        2 => at_cell(code, column, row, MouseKind::WheelLeft),
        _ => at_cell(code, column, row, MouseKind::WheelRight),
    }
}

fn read_button(code: u32, column: u32, row: u32, down: bool) -> Unit
    requires column { 0 < column }
    requires row { 0 < row }
    ensures { unit_value result ≡ button_event code column row down }
{
    match kind(button(code), has(code, 32), down) {
        Some(kind) => at_cell(code, column, row, kind),
        None => Unit::Unknown,
    }
}

// What a mouse did, by its code, and its column and row from 1.
#[tactic(auto, unfolding(crate::specs::InputMouse::mouse_at))]
fn read_at(code: u32, column: u32, row: u32, down: bool) -> Unit
    ensures { unit_value result ≡ mouse_at code column row down }
{
    if code >= 192 || column == 0 || row == 0 {
        return Unit::Unknown;
    }
    if has(code, 64) {
        read_wheel(code, column, row, down)
    } else {
        read_button(code, column, row, down)
    }
}

/// An SGR mouse report: its code, its column and row from 1, and its final byte.
#[tactic(auto, unfolding(crate::specs::InputMouse::mouse_event))]
pub fn read_mouse(code: u32, column: u32, row: u32, last: u8) -> Unit
    ensures { unit_value result ≡ mouse_event code column row last }
{
    if last == b'M' || last == b'm' {
        read_at(code, column, row, last == b'M')
    } else {
        Unit::Unknown
    }
}

#[tactic(auto, unfolding(crate::specs::InputMouse::old_mouse_event))]
fn read_old(code: u32, column: u32, row: u32) -> Unit
    ensures { unit_value result ≡ old_mouse_event code column row }
{
    if code & 227 == 3 && column != 0 && row != 0 {
        at_cell(code, column, row, MouseKind::ReleaseAny)
    } else {
        read_at(code, column, row, true)
    }
}

/// A report of the older modes: its code, which 32 is added to, and its column and row from 1.
pub fn read_old_mouse(code: u32, column: u32, row: u32) -> Unit
    ensures { unit_value result ≡ raised_mouse_event code column row }
{
    if code < 32 {
        return Unit::Unknown;
    }
    read_old(code - 32, column, row)
}
