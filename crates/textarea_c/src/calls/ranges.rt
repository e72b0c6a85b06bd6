//! Atomic ranges: spans of characters in a line that are edited as a whole.
ghost use Rattle.std.specs.Prelude.{◌≡◌, ◌≢◌, IfSome, MatchOption, MatchResult, is_some, length, map};
ghost use Rattle.textarea_document.specs.Edits.{range_at_cursor};
ghost use Rattle.textarea_ranges.specs.Lookup.{range_around};
ghost use Rattle.textarea_ranges.specs.Order.{AreInOrder};
ghost use Rattle.textarea_ranges.specs.Valid.{AreValid};
ghost use Rattle.textarea_text.specs.Text.{lines};
ghost use Rattle.tui_textarea.specs.Guards.{removable_range, unless_read_only};
ghost use Rattle.textarea_data.specs.declared.range.AtomicCursorBias.TheVariants.{Forward};
ghost use Rattle.tui_textarea.specs.Units.{settled};
ghost use Rattle.tui_textarea.specs.Ranges.{cursor_normalized, atomic_range_removed};
ghost use Rattle.textarea_c.specs.Calls.{Calls, OnlyReads, SetsValidRanges, Tries, TriesBy};
ghost use Rattle.textarea_c_data.specs.Copied.{copied_over};
ghost use Rattle.textarea_c_data.specs.Numbers.{bias_of_number, direction_of};
ghost use Rattle.textarea_c_data.specs.Ranges.{IsRangeOut, plain_range, plain_rejected, range_of};

use crate::calls::on;
use crate::editor::Editor;
use crate::handle::Handle;
use std::alloc::Global;
use textarea_c_data::numbers::{read_bias, read_direction};
use textarea_c_data::range::{
    CRange, Rejected, read_ranges, write_range, write_ranges, write_rejected,
};
use textarea_c_data::status::{INVALID_ARGUMENT, OK, OUT_OF_MEMORY, RANGES_REJECTED, truth};
use textarea_data::range::{AtomicDeleteDirection, AtomicRangeError, RejectedAtomicRange};

/// Replaces the atomic ranges; they are sorted by row and start. Each has at least one character,
/// within one line, and no two share a character. A cursor strictly inside a range moves to its
/// end, a selection's beginning to its start, and a selection that is empty after that is dropped.
/// Ranges move with the text at each edit, undo and redo: a removal drops those that it removes, an
/// undo or redo also those that it splits. `ta_rejected_ranges` returns the rejected ones.
///
/// Statuses: ok, out of memory, ranges rejected, empty handle. Where it is not ok, the ranges stay.
#[unsafe(no_mangle)]
pub extern "C" fn ta_set_atomic_ranges(handle: &mut Handle, alloc: Global, ranges: &[CRange]) -> u32
    ensures { Calls handle.old.stored.content result handle.new.stored.content
        (λ a b. SetsValidRanges (map range_of ranges.now) result a b) }
{
    on!(handle, alloc, editor => set_ranges(&mut editor, alloc, ranges))
}

// Sets the ranges, or stores those that are rejected.
fn set_ranges(editor: &mut Editor, alloc: Global, ranges: &[CRange]) -> u32
    ensures { SetsValidRanges (map range_of ranges.now) result editor.old editor.new }
{
    let Ok(read) = read_ranges(alloc, ranges) else {
        return OUT_OF_MEMORY;
    };
    match editor.area.try_set_atomic_ranges(read) {
        Ok(outcome) => store_rejected(outcome, &mut editor.rejected),
        Err(_) => OUT_OF_MEMORY,
    }
}

// Stores the rejected ranges, if there are any, and returns the status.
fn store_rejected(
    outcome: Result<(), AtomicRangeError>,
    rejected: &mut Vec<RejectedAtomicRange>,
) -> u32
    ensures { MatchResult outcome (λ _. (result ≡ 0) × (rejected.new ≡ rejected.old))
        (λ error. (result ≡ 4) × (rejected.new ≡ error.rejected)) }
{
    match outcome {
        Ok(()) => OK,
        Err(error) => {
            *rejected = error.rejected;
            RANGES_REJECTED
        }
    }
}

/// Returns the ranges that the last rejected `ta_set_atomic_ranges` rejected, sorted by row and
/// start, each with the first reason that applies. `out` gets the first of them, as many as there
/// is room for, and `needed` their number.
///
/// Statuses: ok, empty handle.
#[unsafe(no_mangle)]
pub extern "C" fn ta_rejected_ranges(
    handle: &mut Handle,
    alloc: Global,
    out: &mut [Rejected],
    needed: &mut usize,
) -> u32
    ensures unchanged { Calls handle.old.stored.content result handle.new.stored.content
        (λ a b. OnlyReads result a b) }
    ensures ranges { IfSome handle.old.stored.content
        (λ a. (needed.new ≡ length a.rejected.items)
        × (out.new ≡ copied_over out.old (map plain_rejected a.rejected.items))) }
    ensures unwritten { result ≢ 0 → (out.new ≡ out.old) × (needed.new ≡ needed.old) }
{
    on!(handle, alloc, editor => {
        *needed = write_rejected(editor.rejected.as_slice(), out);
        OK
    })
}

/// Returns the atomic ranges, sorted by row and start. `out` gets the first of them, as many as
/// there is room for, and `needed` their number.
///
/// Statuses: ok, empty handle.
#[unsafe(no_mangle)]
pub extern "C" fn ta_atomic_ranges(
    handle: &mut Handle,
    alloc: Global,
    out: &mut [CRange],
    needed: &mut usize,
) -> u32
    ensures unchanged { Calls handle.old.stored.content result handle.new.stored.content
        (λ a b. OnlyReads result a b) }
    ensures ranges { IfSome handle.old.stored.content
        (λ a. (needed.new ≡ length a.area.document.ranges)
        × (out.new ≡ copied_over out.old (map plain_range a.area.document.ranges))) }
    ensures valid { IfSome handle.old.stored.content
        (λ a. AreValid (lines a.area.document.text) a.area.document.ranges) }
    ensures in_order { IfSome handle.old.stored.content
        (λ a. AreInOrder a.area.document.ranges) }
    ensures unwritten { result ≢ 0 → (out.new ≡ out.old) × (needed.new ≡ needed.old) }
{
    on!(handle, alloc, editor => {
        *needed = write_ranges(editor.area.atomic_ranges(), out);
        OK
    })
}

/// Moves a cursor strictly inside an atomic range to its start for `TA_BACKWARD`, to its end for
/// `TA_FORWARD`. The selection stays, and a run of typing continues.
///
/// Statuses: ok (the cursor moved), false, invalid argument (there is no such end), empty handle.
#[unsafe(no_mangle)]
pub extern "C" fn ta_normalize_cursor_around_atomic_ranges(
    handle: &mut Handle,
    alloc: Global,
    bias: u32,
) -> u32
    ensures area { Calls handle.old.stored.content result handle.new.stored.content
        (λ a b. TriesBy (bias_of_number bias)
        (λ end. is_some (range_around a.area.document.ranges a.area.document.cursor))
        (λ end. settled end (cursor_normalized a.area end)) result a b) }
{
    on!(handle, alloc, editor => match read_bias(bias) {
        Some(bias) => truth(editor.area.normalize_cursor_around_atomic_ranges(bias)),
        None => INVALID_ARGUMENT,
    })
}

/// Returns the atomic range at the cursor: for `TA_BACKWARD` one that starts before the cursor and
/// ends at or after it, for `TA_FORWARD` one that starts at or before the cursor and ends after it.
///
/// Statuses: ok, false (there is none), invalid argument (there is no such side), empty handle.
#[unsafe(no_mangle)]
pub extern "C" fn ta_atomic_range_at_cursor(
    handle: &mut Handle,
    alloc: Global,
    direction: u32,
    range: &mut CRange,
) -> u32
    ensures unchanged { Calls handle.old.stored.content result handle.new.stored.content
        (λ a b. b ≡ a) }
    ensures range { IfSome handle.old.stored.content (λ a. MatchOption (direction_of direction)
        (result ≡ 6) (λ side. IsRangeOut (range_at_cursor a.area.document side) result range.new)) }
    ensures unwritten { result ≢ 0 → range.new ≡ range.old }
{
    on!(handle, alloc, editor => find_range(&editor, direction, range))
}

// Writes the atomic range at the cursor, if there is one, and returns the status.
fn find_range(editor: &Editor, direction: u32, range: &mut CRange) -> u32
    ensures range { MatchOption (direction_of direction) (result ≡ 6)
        (λ side. IsRangeOut (range_at_cursor editor.now.area.document side) result range.new) }
    ensures unwritten { result ≢ 0 → range.new ≡ range.old }
{
    match read_direction(direction) {
        Some(side) => write_range(editor.area.atomic_range_at_cursor(side), range),
        None => INVALID_ARGUMENT,
    }
}

/// Removes the atomic range at the cursor, as `ta_atomic_range_at_cursor` finds it, and returns it;
/// yanks nothing. The selection stays open; if its beginning is past its line's end after that, it
/// moves to that end.
///
/// Statuses: ok, false (there is none), out of memory, invalid argument (there is no such side),
/// empty handle.
#[unsafe(no_mangle)]
pub extern "C" fn ta_delete_atomic_range_at_cursor(
    handle: &mut Handle,
    alloc: Global,
    direction: u32,
    range: &mut CRange,
) -> u32
    ensures area { Calls handle.old.stored.content result handle.new.stored.content
        (λ a b. TriesBy (direction_of direction)
        (λ side. is_some (removable_range a.area side))
        (λ side. unless_read_only a.area (settled Forward (atomic_range_removed a.area side)))
        result a b) }
    ensures range { IfSome handle.old.stored.content (λ a. MatchOption (direction_of direction)
        (result ≡ 6) (λ side. result ≢ 2
        → IsRangeOut (removable_range a.area side) result range.new)) }
    ensures unwritten { result ≢ 0 → range.new ≡ range.old }
{
    on!(handle, alloc, editor => remove_numbered(&mut editor, direction, range))
}

// Removes the atomic range at the side with this number, if there is such a side.
fn remove_numbered(editor: &mut Editor, direction: u32, range: &mut CRange) -> u32
    ensures area { TriesBy (direction_of direction)
        (λ side. is_some (removable_range editor.old.area side))
        (λ side. unless_read_only editor.old.area
        (settled Forward (atomic_range_removed editor.old.area side))) result editor.old editor.new }
    ensures range { MatchOption (direction_of direction) (result ≡ 6) (λ side. result ≢ 2
        → IsRangeOut (removable_range editor.old.area side) result range.new) }
    ensures unwritten { result ≢ 0 → range.new ≡ range.old }
{
    match read_direction(direction) {
        Some(side) => remove_range(editor, side, range),
        None => INVALID_ARGUMENT,
    }
}

// Removes the atomic range at the cursor, if there is one, writes it, and returns the status.
fn remove_range(editor: &mut Editor, direction: AtomicDeleteDirection, range: &mut CRange) -> u32
    ensures area { Tries (is_some (removable_range editor.old.area direction))
        (unless_read_only editor.old.area
        (settled Forward (atomic_range_removed editor.old.area direction)))
        result editor.old editor.new }
    ensures range { result ≢ 2
        → IsRangeOut (removable_range editor.old.area direction) result range.new }
    ensures unwritten { result ≢ 0 → range.new ≡ range.old }
{
    match editor.area.delete_atomic_range_at_cursor(direction) {
        Ok(removed) => write_range(removed, range),
        Err(_) => OUT_OF_MEMORY,
    }
}
