ghost use Rattle.std.specs.Prelude.{◌≡◌, [], IsOk, None, OnOk};
ghost use Rattle.std.specs.Option.{option_map_or};
ghost use Rattle.textarea_search.specs.Matches.{match_spans};

use crate::search::line_matcher::LineMatcher;
use crate::search::match_cache::MatchCache;
use crate::search::state::Search;
use std::alloc::AllocError;
use std::marker::Model;

/// Lists the matches of many lines, from a cache or, for a line that the cache lacks, with a
/// matcher, and then stores them. Contracts see the text of the pattern, if there is one.
#[derive(Drop)]
pub struct CachingMatcher<'a, 'k> {
    search: &'a Search,
    matcher: Option<LineMatcher<'a>>,
    cached: &'k mut MatchCache,
}

impl<'a, 'k> Model for CachingMatcher<'a, 'k> {
    ghost use Rattle.std.specs.Prelude.{◌≡◌, ℕ, IfSome, List, Option, Some};

    ghost Value = { Option (List ℕ) };

    ghost view = { λ m. m.search.now };

    ghost invariant = { λ m. IfSome m.matcher (λ pattern. m.search.now ≡ Some pattern) };
}

impl<'a, 'k> CachingMatcher<'a, 'k> {
    pub(crate) fn new(search: &'a Search, cached: &'k mut MatchCache) -> CachingMatcher<'a, 'k>
        ensures { result ≡ search.now }
    {
        CachingMatcher {
            search,
            matcher: None,
            cached,
        }
    }

    /// Replaces the content of a vector by the matches of a line, as `Search::matches` lists them,
    /// or by nothing without a pattern. `number` is the line's number in the cache.
    pub fn spans_into(
        &mut self,
        number: usize,
        line: &str,
        spans: &mut Vec<(usize, usize)>,
    ) -> Result<(), AllocError>
        ensures found { OnOk result (spans.new.items
            ≡ option_map_or (λ pattern. match_spans pattern line.now) self.old []) }
        ensures none { self.old ≡ None → spans.new.items ≡ [] }
        ensures no_pattern { self.old ≡ None → IsOk result }
        ensures same { self.new ≡ self.old }
    {
        let search = self.search;
        spans.clear();
        let Some(pattern) = search.pattern() else {
            return Ok(());
        };
        if let Some(found) = self.cached.get(number, pattern, line) {
            spans.extend_from_slice(found)?;
            return Ok(());
        }
        self.find(line, spans)?;
        self.cached.put(number, pattern, line, spans.as_slice())
    }

    // Finds the matches of a line without the cache.
    fn find(&mut self, line: &str, spans: &mut Vec<(usize, usize)>) -> Result<(), AllocError>
        ensures found { OnOk result (spans.new.items
            ≡ option_map_or (λ pattern. match_spans pattern line.now) self.old []) }
        ensures same { self.new ≡ self.old }
    {
        if self.matcher.is_none() {
            self.matcher = self.search.line_matcher()?;
        }
        match &mut self.matcher {
            Some(matcher) => matcher.spans_into(line, spans),
            None => {
                spans.clear();
                Ok(())
            }
        }
    }
}
