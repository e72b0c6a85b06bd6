ghost use Rattle.std.specs.Prelude.{◌≡◌};
ghost use Rattle.std.specs.Iterator.{YieldsFirst, item_count};

use std::marker::Model;
use std::vec::IntoIter;

/// An iterator over the matches of a line, all found beforehand: from the left, the byte offsets of
/// each match's start and end (exclusive). Contracts see the list of those that are left.
#[derive(Drop)]
pub struct Matches {
    spans: IntoIter<(usize, usize)>,
}

impl Model for Matches {
    ghost use Rattle.std.specs.Prelude.{ℕ, List};
    ghost use Rattle.std.specs.Vec.Iter.{into_iter_items};

    ghost Value = { List (ℕ × ℕ) };

    ghost view = { λ matches. into_iter_items matches.spans };
}

impl Matches {
    pub(crate) fn new(spans: Vec<(usize, usize)>) -> Matches
        ensures { result ≡ spans.items }
    {
        Matches {
            spans: spans.into_iter(),
        }
    }
}

impl Iterator for Matches {
    type Item = (usize, usize);

    ghost next_gives = { YieldsFirst (λ spans. spans) };

    ghost remaining = { item_count (λ spans. spans) };

    fn next(&mut self) -> Option<(usize, usize)> {
        self.spans.next()
    }
}
