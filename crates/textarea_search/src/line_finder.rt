//! A search for one text in many lines.
ghost use Rattle.std.specs.Prelude.{◌≡◌, ◌↔◌, ◌<◌, ◌≤◌, length, IfSome, IsCharBoundary, IsTrue, IsUtf8};
ghost use Rattle.memchr.specs.Find.{FindsNeedle, IsLast, OccursAt};
ghost use Rattle.textarea_search.specs.Spans.{StartsOnce};
ghost use Rattle.textarea_search.specs.Starts.{last_of};

use crate::byte_pair::BytePair;
use memchr::memchr;
use memchr::memmem::{Finder, rfind};
use std::marker::Model;

/// Finds a text in many lines, most of which lack it. Contracts see the text.
#[derive(Drop)]
pub(crate) struct LineFinder<'n> {
    finder: Finder<'n>,
    pair: Option<BytePair>,
}

impl<'n> Model for LineFinder<'n> {
    ghost use Rattle.std.specs.Prelude.{ℕ, List, IfSome, IsUtf8};
    ghost use Rattle.textarea_search.specs.BytePairs.{IsPairOf};

    ghost Value = { List ℕ };

    ghost view = { λ f. f.finder };

    ghost invariant = { λ f. IfSome f.pair (λ pair. IsPairOf pair f.finder) × IsUtf8 f.finder };
}

impl<'n> LineFinder<'n> {
    /// Returns a finder of this text.
    pub(crate) fn new(text: &'n str) -> LineFinder<'n>
        ensures { result ≡ text.now }
    {
        LineFinder {
            finder: Finder::new(text.as_bytes()),
            pair: BytePair::of(text.as_bytes()),
        }
    }

    /// Returns the first index at which a line has the text. Most lines that lack it also lack two
    /// of its bytes as far apart as the text has them, and are passed over by a test of only these.
    pub(crate) fn find(&self, line: &[u8]) -> Option<usize>
        ensures { FindsNeedle line.now self.now 0 result }
    {
        if let Some(pair) = self.pair {
            if !pair.may_be_in(line) {
                return None;
            }
        }
        self.finder.find(line)
    }

    /// Returns the first index at or after `from` at which a line has the text.
    pub(crate) fn find_from(&self, line: &str, from: usize) -> Option<usize>
        requires { from ≤ length line.now }
        ensures found { FindsNeedle line.now self.now from result }
        ensures boundary { 0 < length self.now → IfSome result (IsCharBoundary line.now) }
    {
        let found = self.finder.find(&line.as_bytes()[from..])?;
        Some(from + found)
    }

    /// Returns the last index before `byte` or, with `at_byte`, at it at which a line has the text.
    pub(crate) fn find_before(&self, line: &str, byte: usize, at_byte: bool) -> Option<usize>
        requires { 0 < length self.now }
        ensures found { IsLast (OccursAt line.now self.now) 0 (last_of byte at_byte) result }
        ensures boundary { IfSome result (IsCharBoundary line.now) }
    {
        let needle = self.finder.needle();
        let reach = if at_byte {
            needle.len()
        } else {
            needle.len() - 1
        };
        let end = byte.saturating_add(reach).min(line.len());
        rfind(&line.as_bytes()[..end], needle)
    }

    /// Returns whether the text's first byte isn't in the rest of it, so that the text can't
    /// overlap itself.
    pub(crate) fn starts_once(&self) -> bool
        ensures once { IsTrue result ↔ StartsOnce self.now }
        ensures utf8 { IsUtf8 self.now }
    {
        match self.finder.needle().split_first() {
            Some((first, rest)) => memchr(*first, rest).is_none(),
            None => false,
        }
    }
}
