// Defaults, conversions, copies, and texts of `Debug`.
use std::alloc::{AllocError, Global};
use std::fmt::Debug;
use std::test::Fail;
use textarea_data::cursor::DataCursor;
use textarea_data::input::{Input, Key};
use textarea_data::scroll::Scrolling;

#[test]
fn defaults(rt: HostRuntime) -> Result<(), Fail> {
    assert!(rt; Key::default() == Key::Null);
    let input = Input::default();
    assert!(rt; input.key == Key::Null && !input.ctrl && !input.alt && !input.shift);
    assert!(rt; input.clone()? == input);
    Ok(())
}

#[test]
fn places_and_amounts(rt: HostRuntime) {
    let cursor = DataCursor::from((3, 4));
    assert!(rt; cursor == DataCursor(3, 4));
    let place: (usize, usize) = cursor.into();
    assert!(rt; place == (3, 4));
    let scrolling = Scrolling::from((1, -2));
    assert!(rt; scrolling == Scrolling::Delta { rows: 1, cols: -2 });
}

fn is_printed<T>(alloc: Global, value: &T) -> Result<bool, AllocError>
where
    T: Debug,
{
    let displayed = format!(in alloc; "{value:?}")?;
    Ok(!displayed.is_empty())
}

#[test]
fn printed_by_debug(rt: HostRuntime) -> Result<(), Fail> {
    let is_key_printed = is_printed(rt.alloc(), &Key::Char('a'))?;
    assert!(rt; is_key_printed);
    let is_input_printed = is_printed(rt.alloc(), &Input::default())?;
    assert!(rt; is_input_printed);
    Ok(())
}
