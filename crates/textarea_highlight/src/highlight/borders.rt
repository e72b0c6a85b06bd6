//! Where highlights start and end in a row.
ghost use Rattle.std.specs.Prelude.{◌≡◌, [], ◌++◌, ℕ, List, IfOk, IsOk, OnOk, OnErr, IsCharBoundary, IsPermutation};
ghost use Rattle.std.specs.Iterator.{IsFinite, Drains};
ghost use Rattle.std.specs.List.Sorted.{IsSortedByKey, IsStableByKey};
ghost use Rattle.textarea_highlight.specs.Borders.{ArePlaced, IsEmptyAt, MarkNothing, rounded_down, highlight_borders, match_borders, border_key, border_cmp};

use std::alloc::{AllocError, Global};
use textarea_screen::screen::Style;

/// The effect of a border: it starts a highlight in this style, or ends the newest open one.
#[derive(Clone, Copy, Debug, PartialEq, Eq)]
pub enum BorderEffect {
    Start(Style),
    End,
}

/// An offset in a row at which a highlight starts or ends.
#[derive(Clone, Copy, Debug, PartialEq, Eq)]
pub struct Border {
    /// In bytes from the row's start.
    pub offset: usize,
    /// Of the borders at one offset, those of a lower rank come first.
    pub rank: u8,
    pub mark: BorderEffect,
}

const END_RANK: u8 = 0;

const MATCH_RANK: u8 = 20;

/// Adds the start and the end of a highlight between two byte offsets, each clipped to the row and
/// rounded down to a character's start. Adds nothing if no character is between them.
pub fn push_highlight(
    borders: &mut Vec<Border>,
    row: &str,
    from: usize,
    to: usize,
    style: Style,
    rank: u8,
) -> Result<(), AllocError>
    ensures added { OnOk result (borders.new.items
        ≡ borders.old.items ++ highlight_borders row.now from to style rank) }
    ensures placed { ArePlaced row.now borders.old.items → ArePlaced row.now borders.new.items }
    ensures nothing { IsEmptyAt row.now from to → IsOk result ×
        (borders.new.items ≡ borders.old.items) }
    ensures err { OnErr result (borders.new.items ≡ borders.old.items) }
{
    let start = round_down(row, from);
    let end = round_down(row, to);
    if start < end {
        borders.extend_from_slice(&[
            Border {
                offset: start,
                rank,
                mark: BorderEffect::Start(style),
            },
            Border {
                offset: end,
                rank: END_RANK,
                mark: BorderEffect::End,
            },
        ])?;
    }
    Ok(())
}

/// Returns the borders of the matches' highlights, in the order of the matches.
pub fn borders_of_matches<I: Iterator<Item = (usize, usize)> + Drop>(
    alloc: Global,
    row: &str,
    matches: I,
    style: Style,
) -> Result<Vec<Border>, AllocError>
    requires can { I.can_next matches }
    requires ends { IsFinite (I.remaining matches) }
    ensures borders { IfOk result (λ borders. (pairs : List (ℕ × ℕ))
        × Drains I.next_gives matches pairs
        × (borders.items ≡ match_borders row.now pairs style)) }
    ensures placed { IfOk result (λ borders. ArePlaced row.now borders.items) }
    ensures nothing { MarkNothing I.next_gives matches row.now →
        IsOk result × IfOk result (λ borders. borders.items ≡ []) }
{
    let mut borders = Vec::new(alloc);
    for found in matches {
        push_highlight(&mut borders, row, found.0, found.1, style, MATCH_RANK)?;
    }
    Ok(borders)
}

/// Returns the last offset up to this one at which a character starts or the row ends.
fn round_down(row: &str, offset: usize) -> usize
    ensures value { result ≡ rounded_down row.now offset }
    ensures boundary { IsCharBoundary row.now result }
{
    row.floor_char_boundary(offset)
}

/// Sorts the borders by offset, then by rank, then as they were added.
pub fn sort(borders: &mut Vec<Border>) -> Result<(), AllocError>
    ensures permutation { IsPermutation borders.old.items borders.new.items }
    ensures sorted { OnOk result (IsSortedByKey border_key border_cmp borders.new.items) }
    ensures stable { IsStableByKey border_key border_cmp borders.old.items borders.new.items }
    ensures nothing { borders.old.items ≡ [] → IsOk result }
    ensures err { OnErr result (borders.new.items ≡ borders.old.items) }
{
    borders.sort_by_key(|border| (border.offset, border.rank))?;
    Ok(())
}
