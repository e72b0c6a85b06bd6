//! Matches in the lines of a text, with their positions.
ghost use Rattle.std.specs.Prelude.{◌≡◌, ◌≤◌, ◌+◌, ◌++◌, map, All, OnOk};
ghost use Rattle.textarea_search.specs.TextMatches.{text_match};

use std::alloc::AllocError;

/// A match in a text.
#[derive(Clone, Copy, Debug, PartialEq, Eq)]
pub struct TextMatch {
    /// The row of its line.
    pub row: usize,
    /// The columns of its start and of its end (exclusive), in characters.
    pub columns: (usize, usize),
    /// The numbers of symbols before its start and before its end: characters, and breaks between
    /// two lines.
    pub indices: (usize, usize),
}

/// Appends the matches between these columns of the row, whose line begins after `before` symbols.
pub(crate) fn push_matches(
    matches: &mut Vec<TextMatch>,
    row: usize,
    before: usize,
    pairs: &[(usize, usize)],
) -> Result<(), AllocError>
    requires starts { All (λ columns. before + columns.0 ≤ usize.MAX) pairs.now }
    requires ends { All (λ columns. before + columns.1 ≤ usize.MAX) pairs.now }
    ensures { OnOk result
        (matches.new.items ≡ matches.old.items ++ map (text_match row before) pairs.now) }
{
    for pair in pairs {
        let columns = *pair;
        matches.push(TextMatch {
            row,
            columns,
            indices: (before + columns.0, before + columns.1),
        })?;
    }
    Ok(())
}
