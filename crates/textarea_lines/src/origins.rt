//! Where the lines of a numbered text come from.
ghost use Rattle.std.specs.Prelude.{◌≡◌, ◌+◌, length, option_map, IfOk, IfSome, None, [], replicate, unwrap_or};
ghost use Rattle.textarea_lines.specs.AtOnce.{first_origins};
ghost use Rattle.textarea_lines.specs.OriginVectors.{HasRoomForLines};
ghost use Rattle.textarea_lines.specs.Prelude.{new_line_count, origins_of, replaced_line_count};
ghost use Rattle.textarea_util.specs.Replaced.{replaced};

use std::alloc::{AllocError, Global};
use textarea_history::edit::Change;
use textarea_util::limit::within_limit;
use textarea_util::replace::replace_items;

/// For each line the number of the line that it was when lines were numbered, or `None` if a change
/// touched it since. There is none of this if lines aren't numbered.
pub(crate) type Origins = Option<Vec<Option<usize>>>;

/// Returns the numbers of lines that no change touched yet.
pub(crate) fn first_origins(
    alloc: Global,
    line_count: usize,
) -> Result<Vec<Option<usize>>, AllocError>
    ensures { IfOk result (λ origins. origins.items ≡ first_origins line_count) }
{
    let mut origins = Vec::with_capacity(alloc, line_count)?;
    for number in 0..line_count {
        origins.push(Some(number))?;
    }
    Ok(origins)
}

/// Returns a copy.
pub(crate) fn copy_origins(origins: &Origins) -> Result<Origins, AllocError>
    ensures { IfOk result (λ copy. origins_of copy ≡ origins_of origins.now) }
{
    match origins {
        Some(origins) => Ok(Some(origins.clone()?)),
        None => Ok(None),
    }
}

/// Returns the numbers, or none if lines aren't numbered.
pub(crate) fn slice_of(origins: &Origins) -> &[Option<usize>]
    ensures { result.now ≡ unwrap_or (origins_of origins.now) [] }
{
    match origins {
        Some(origins) => origins.as_slice(),
        None => &[],
    }
}

/// Returns the first line that a change touches, and the number of lines that it touches, before it
/// and after it.
pub(crate) fn touched_lines(change: &Change<'_>) -> Result<(usize, usize, usize), AllocError>
    ensures row { IfOk result (λ touched. touched.0 ≡ change.now.place.0) }
    ensures gone { IfOk result (λ touched. touched.1 ≡ replaced_line_count change.now) }
    ensures come { IfOk result (λ touched. touched.2 ≡ new_line_count change.now) }
{
    let row = change.start().0;
    let gone = within_limit(change.cursor_before().0 - row)? + 1;
    let come = within_limit(change.cursor_after().0 - row)? + 1;
    Ok((row, gone, come))
}

/// Returns what to put in for `gone` lines from the row on, if a change makes `come` lines of them,
/// and reserves room for it.
pub(crate) fn prepare_origins(
    alloc: Global,
    origins: &mut Origins,
    row: usize,
    gone: usize,
    come: usize,
) -> Result<Vec<Option<usize>>, AllocError>
    ensures same { origins_of origins.new ≡ origins_of origins.old }
    ensures room { IfOk result (λ new.
        HasRoomForLines origins.new row gone (length new.items)) }
    ensures new { IfOk result (λ new. IfSome origins.old (λ _. new.items ≡ replicate come None)) }
{
    match origins {
        Some(origins) => {
            let shared = gone.min(origins.len().saturating_sub(row));
            origins.reserve(come.saturating_sub(shared))?;
            no_numbers(alloc, come)
        }
        None => Ok(Vec::new(alloc)),
    }
}

// Returns no number for each of these lines.
fn no_numbers(alloc: Global, count: usize) -> Result<Vec<Option<usize>>, AllocError>
    ensures { IfOk result (λ new. new.items ≡ replicate count None) }
{
    let mut new = Vec::with_capacity(alloc, count)?;
    for _ in 0..count {
        new.push(None)?;
    }
    Ok(new)
}

/// Puts in what was prepared, for a change that made that number of lines.
pub(crate) fn put_origins(origins: &mut Origins, row: usize, gone: usize, new: Vec<Option<usize>>)
    requires { HasRoomForLines origins.old row gone (length new.items) }
    ensures { origins_of origins.new
        ≡ option_map (λ origins. replaced origins row gone new.items) (origins_of origins.old) }
{
    if let Some(origins) = origins {
        let start = row.min(origins.len());
        let shared = gone.min(origins.len() - start);
        replace_items(origins, start, shared, new);
    }
}
