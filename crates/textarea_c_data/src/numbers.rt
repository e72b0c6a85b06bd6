//! The numbers by which C names the values of enums.
ghost use Rattle.std.specs.Prelude.{◌≡◌, Some};
ghost use Rattle.textarea_c_data.specs.Numbers.{alignment_of, bias_of_number, change_unit_of, colors_of, direction_of, move_of, page_of};

use textarea_change::ChangeUnit;
use textarea_data::cursor::CursorMove;
use textarea_data::range::{AtomicCursorBias, AtomicDeleteDirection};
use textarea_data::scroll::Scrolling;
use textarea_screen::screen::Alignment;
use textarea_terminal::output::Colors;

/// Returns the move of this number. `CursorMove::Jump` has none.
pub fn read_move(number: u32) -> Option<CursorMove>
    ensures { result ≡ move_of number }
{
    Some(match number {
        0 => CursorMove::Forward,
        1 => CursorMove::Back,
        2 => CursorMove::Up,
        3 => CursorMove::Down,
        4 => CursorMove::Head,
        5 => CursorMove::End,
        6 => CursorMove::Top,
        7 => CursorMove::Bottom,
        8 => CursorMove::WordForward,
        9 => CursorMove::WordEnd,
        10 => CursorMove::WordBack,
        11 => CursorMove::ParagraphForward,
        12 => CursorMove::ParagraphBack,
        13 => CursorMove::InViewport,
        _ => return None,
    })
}

/// Returns the scroll by pages of this number.
pub fn read_page(number: u32) -> Option<Scrolling>
    ensures { result ≡ page_of number }
{
    Some(match number {
        0 => Scrolling::PageDown,
        1 => Scrolling::PageUp,
        2 => Scrolling::HalfPageDown,
        3 => Scrolling::HalfPageUp,
        _ => return None,
    })
}

/// Returns the end of an atomic range that this number names.
pub fn read_bias(number: u32) -> Option<AtomicCursorBias>
    ensures { result ≡ bias_of_number number }
{
    Some(match number {
        0 => AtomicCursorBias::Backward,
        1 => AtomicCursorBias::Forward,
        _ => return None,
    })
}

/// Returns the side of the cursor that this number names.
pub fn read_direction(number: u32) -> Option<AtomicDeleteDirection>
    ensures { result ≡ direction_of number }
{
    Some(match number {
        0 => AtomicDeleteDirection::Backward,
        1 => AtomicDeleteDirection::Forward,
        _ => return None,
    })
}

/// Returns the unit of changes of this number.
pub fn read_change_unit(number: u32) -> Option<ChangeUnit>
    ensures { result ≡ change_unit_of number }
{
    Some(match number {
        0 => ChangeUnit::Characters,
        1 => ChangeUnit::Bytes,
        2 => ChangeUnit::Utf16,
        _ => return None,
    })
}

/// Returns the alignment of this number.
pub fn read_alignment(number: u32) -> Option<Alignment>
    ensures { result ≡ alignment_of number }
{
    Some(match number {
        0 => Alignment::Left,
        1 => Alignment::Center,
        2 => Alignment::Right,
        _ => return None,
    })
}

/// Returns the number of the alignment.
pub fn alignment_number(alignment: Alignment) -> u32
    ensures { alignment_of result ≡ Some alignment }
{
    match alignment {
        Alignment::Left => 0,
        Alignment::Center => 1,
        Alignment::Right => 2,
    }
}

/// Returns the colours of a terminal that this number names.
pub fn read_colors(number: u32) -> Option<Colors>
    ensures { result ≡ colors_of number }
{
    Some(match number {
        0 => Colors::None,
        1 => Colors::Sixteen,
        2 => Colors::Indexed,
        3 => Colors::True,
        _ => return None,
    })
}
