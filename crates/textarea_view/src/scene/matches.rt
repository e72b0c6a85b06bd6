//! The matches of one line after another, found once for each line.
ghost use Rattle.std.specs.Prelude.{◌≡◌, ◌<◌, length, IfOk, OnOk};
ghost use Rattle.textarea_view.specs.Prelude.{lines_of, matches_in};

use std::alloc::{AllocError, Global};
use std::marker::Model;
use textarea_search::search::{CachingMatcher, MatchCache, Search};

/// The matches of the last requested line, from the cache or found by one matcher.
#[derive(Drop)]
pub(super) struct LineMatches<'a, 'k> {
    matcher: CachingMatcher<'a, 'k>,
    lines: &'a [String],
    line: Option<usize>,
    found: Vec<(usize, usize)>,
}

impl<'a, 'k> Model for LineMatches<'a, 'k> {
    ghost use Rattle.textarea_text.specs.Text.{lines_of};
    ghost use Rattle.textarea_view.specs.SceneRows.{KnownMatches, AreMatchesOf};

    ghost Value = { KnownMatches };

    ghost view = { λ m. record {
      searched = record { pattern = m.matcher; lines = lines_of m.lines.now };
      found = m.found.items;
    } };

    ghost invariant = { λ m. AreMatchesOf
        (record { pattern = m.matcher; lines = lines_of m.lines.now }) m.line m.found.items };
}

impl<'a, 'k> LineMatches<'a, 'k> {
    /// Stores the matches of up to `count` successive lines in `cached`.
    pub(super) fn new(
        alloc: Global,
        search: &'a Search,
        lines: &'a [String],
        cached: &'k mut MatchCache,
        count: usize,
    ) -> Result<LineMatches<'a, 'k>, AllocError>
        ensures { IfOk result (λ m. m.searched
            ≡ record { pattern = search.now; lines = lines_of lines.now }) }
    {
        Ok(LineMatches {
            matcher: search.caching_matcher(cached, count)?,
            lines,
            line: None,
            found: Vec::new(alloc),
        })
    }

    /// Finds the matches of this line, unless it is the line whose matches are there already.
    pub(super) fn search_line(&mut self, line: usize) -> Result<(), AllocError>
        requires { line < length self.old.searched.lines }
        ensures found { OnOk result (self.new.found ≡ matches_in self.old.searched line) }
        ensures same { self.new.searched ≡ self.old.searched }
    {
        if self.line == Some(line) {
            return Ok(());
        }
        let text = self.lines[line].as_str();
        match self.matcher.spans_into(line, text, &mut self.found) {
            Ok(()) => {
                self.line = Some(line);
                Ok(())
            }
            Err(error) => {
                self.line = None;
                Err(error)
            }
        }
    }

    /// Returns the byte offsets of each match's start and end in its line, as `regex` lists them.
    pub(super) fn as_slice(&self) -> &[(usize, usize)]
        ensures { result.now ≡ self.now.found }
    {
        self.found.as_slice()
    }
}
