ghost use Rattle.std.specs.Prelude.{◌≡◌, IfOk, IfSome};
ghost use Rattle.regex.specs.Strings.{matcher_pattern};
ghost use Rattle.textarea_search.specs.Matches.{match_spans};
ghost use Rattle.textarea_search.specs.Spans.{ListsMatchesOf};
ghost use Rattle.textarea_search.specs.Starts.{IsFirstAhead};

use crate::pattern::Pattern;
use crate::search::cache_key::CacheKey;
use crate::search::direction::Direction;
use crate::search::line_starts::{LineStarts, line_starts};
use crate::search::sparse_matches::{SparseMatches, sparse_matches};
use regex::Matcher;
use std::alloc::{AllocError, Global};
use std::marker::Model;

const LONGEST_CACHED: usize = 4096;

const LONGEST_SEARCHED: usize = 33_554_432;

/// Lists of matches that were found, each with the pattern and the line's text for which it was
/// found. The lists stay true whatever changes, so contracts see nothing of them. It has the
/// matches of the lines that were drawn, and the starts of those in the line in which searches
/// began: of at most 32 MiB of text, and 1.5 MiB of starts.
#[derive(Drop)]
pub struct MatchCache {
    alloc: Global,
    lines: Vec<Option<CachedLine>>,
    // For the line of the last searches all starts, or some of very many; at most one of the two.
    starts: Option<LineStarts>,
    sparse: Option<SparseMatches>,
    // The pattern of the last search for which the cache had no starts, and the row and the length
    // of its line.
    missed_pattern: String,
    missed_line: Option<(usize, usize)>,
}

impl Model for MatchCache {
    ghost use Rattle.std.specs.Prelude.{⊤};

    ghost Value = { ⊤ };

    ghost view = { λ cached. tt };
}

impl MatchCache {
    /// Returns an empty cache, which allocates nothing.
    pub fn new(alloc: Global) -> MatchCache {
        MatchCache {
            alloc,
            lines: Vec::new(alloc),
            starts: None,
            sparse: None,
            missed_pattern: String::new(alloc),
            missed_line: None,
        }
    }

    /// Makes room for the matches of at least `count` successive lines.
    pub(crate) fn reserve(&mut self, count: usize) -> Result<(), AllocError> {
        for _ in self.lines.len()..count {
            self.lines.push(None)?;
        }
        Ok(())
    }

    /// Returns the matches of a line, if they are stored under its number.
    pub(crate) fn get(&self, number: usize, pattern: &str, line: &str) -> Option<&[(usize, usize)]>
        ensures { IfSome result (λ spans. spans.now ≡ match_spans pattern.now line.now) }
    {
        if self.lines.is_empty() {
            return None;
        }
        self.lines[number % self.lines.len()]
            .as_ref()?
            .spans_of(pattern, line)
    }

    /// Stores the matches of a line under its number. They replace those of another line whose
    /// number leaves the same remainder. Nothing is stored for a line of more than 4,096 bytes.
    pub(crate) fn put(
        &mut self,
        number: usize,
        pattern: &str,
        line: &str,
        spans: &[(usize, usize)],
    ) -> Result<(), AllocError>
        requires { spans.now ≡ match_spans pattern.now line.now }
    {
        if self.lines.is_empty() || line.len() > LONGEST_CACHED {
            return Ok(());
        }
        let place = number % self.lines.len();
        let before = self.lines[place].take();
        self.lines[place] = Some(cached_line(self.alloc, before, pattern, line, spans)?);
        Ok(())
    }

    /// Returns, if starts of the line's matches are stored, the first start in the search's
    /// direction from the column or, with `at_column`, at it.
    pub(crate) fn start_ahead(
        &self,
        pattern: &Pattern,
        line: &str,
        direction: Direction,
        column: usize,
        at_column: bool,
    ) -> Result<Option<Option<usize>>, AllocError>
        ensures { IfOk result (λ known. IfSome known
            (IsFirstAhead pattern.now line.now direction column at_column)) }
    {
        if let Some(starts) = &self.starts {
            return Ok(starts.ahead(pattern.text(), line, direction, column, at_column));
        }
        match &self.sparse {
            Some(sparse) => sparse.ahead(pattern, line, direction, column, at_column),
            None => Ok(None),
        }
    }

    /// Stores the starts of the line's matches, if the search before was for the same pattern and
    /// began in the same row. So a line is listed only for the pattern's second search in it. Of
    /// more than 65,536 matches only some are stored, and none of a line of more than 33,554,432
    /// bytes.
    pub(crate) fn put_starts(
        &mut self,
        row: usize,
        matcher: &mut Matcher<'_>,
        pattern: &str,
        line: &str,
    ) -> Result<(), AllocError>
        requires { ListsMatchesOf pattern.now (matcher_pattern matcher.old) }
        ensures same { matcher_pattern matcher.new ≡ matcher_pattern matcher.old }
    {
        let missed_line = Some((row, line.len()));
        if self.missed_line != missed_line || self.missed_pattern.as_str() != pattern {
            self.missed_line = missed_line;
            self.missed_pattern.clear();
            return self.missed_pattern.push_str(pattern);
        }
        if line.len() > LONGEST_SEARCHED {
            return Ok(());
        }
        let starts = self.starts.take();
        let sparse = self.sparse.take();
        self.starts = line_starts(self.alloc, starts, matcher, pattern, line)?;
        if self.starts.is_none() {
            let sparse = sparse_matches(self.alloc, sparse, matcher, pattern, line)?;
            self.sparse = Some(sparse);
        }
        Ok(())
    }
}

// The matches of a pattern in a line.
#[derive(Drop)]
struct CachedLine {
    key: CacheKey,
    spans: Vec<(usize, usize)>,
    ghost found: { spans.items ≡ match_spans key.0 key.1 },
}

impl CachedLine {
    // Returns the matches, if they are those of this pattern in this line.
    fn spans_of(&self, pattern: &str, line: &str) -> Option<&[(usize, usize)]>
        ensures { IfSome result (λ spans. spans.now ≡ match_spans pattern.now line.now) }
    {
        if !self.key.is(pattern, line) {
            return None;
        }
        Some(self.spans.as_slice())
    }
}

// Returns an entry with the matches of a line. It reuses the memory of the entry before.
fn cached_line(
    alloc: Global,
    before: Option<CachedLine>,
    pattern: &str,
    line: &str,
    spans: &[(usize, usize)],
) -> Result<CachedLine, AllocError>
    requires { spans.now ≡ match_spans pattern.now line.now }
{
    let (own_key, mut list) = match before {
        Some(cached) => (Some(cached.key), cached.spans),
        None => (None, Vec::new(alloc)),
    };
    let key = CacheKey::of(alloc, own_key, pattern, line)?;
    list.clear();
    list.extend_from_slice(spans)?;
    Ok(CachedLine { key, spans: list })
}
