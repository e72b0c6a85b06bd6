ghost use Rattle.std.specs.Prelude.{◌≡◌, ◌≤◌, ◌+◌, All, map, length, string_bytes, IfOk, OnOk};
ghost use Rattle.std.specs.Str.{chars};
ghost use Rattle.regex.specs.Strings.{matcher_pattern};
ghost use Rattle.textarea_search.specs.ColumnPairs.{match_column_pairs};
ghost use Rattle.textarea_search.specs.Matches.{match_spans};
ghost use Rattle.textarea_search.specs.Spans.{ListsMatchesOf};
ghost use Rattle.textarea_search.specs.TextMatches.{matches_from};
ghost use Rattle.textarea_text.specs.Size.{size_of};
ghost use Rattle.textarea_util.specs.Limit.{size_limit};

use crate::search::column_pairs::list_column_pairs;
use crate::search::listed::list_spans;
use crate::search::text_matches::{TextMatch, push_matches};
use regex::Matcher;
use std::alloc::{AllocError, Global};
use std::marker::Model;
use textarea_text::rows::column_count;

/// Lists the matches of many lines; its creation takes memory and time. Contracts see its pattern.
#[derive(Drop)]
pub struct LineMatcher<'a> {
    matcher: Matcher<'a>,
    pattern: &'a str,
    alloc: Global,
}

impl<'a> Model for LineMatcher<'a> {
    ghost use Rattle.std.specs.Prelude.{ℕ, List};
    ghost use Rattle.regex.specs.Strings.{matcher_pattern};
    ghost use Rattle.textarea_search.specs.Spans.{ListsMatchesOf};

    ghost Value = { List ℕ };

    ghost view = { λ m. m.pattern.now };

    ghost invariant = { λ m. ListsMatchesOf m.pattern.now (matcher_pattern m.matcher) };
}

impl<'a> LineMatcher<'a> {
    pub(crate) fn new(alloc: Global, matcher: Matcher<'a>, pattern: &'a str) -> LineMatcher<'a>
        requires { ListsMatchesOf pattern.now (matcher_pattern matcher) }
        ensures { result ≡ pattern.now }
    {
        LineMatcher {
            matcher,
            pattern,
            alloc,
        }
    }

    /// Returns the matches of a line as `regex` lists them: from the left, the byte offsets of each
    /// match's start and end (exclusive). None overlaps the one before.
    pub fn spans(&mut self, line: &str) -> Result<Vec<(usize, usize)>, AllocError>
        ensures found { IfOk result (λ spans. spans.items ≡ match_spans self.old line.now) }
        ensures same { self.new ≡ self.old }
    {
        let mut spans = Vec::new(self.alloc);
        self.spans_into(line, &mut spans)?;
        Ok(spans)
    }

    /// Does the same, but replaces the content of a vector, whose memory is reused.
    pub fn spans_into(
        &mut self,
        line: &str,
        spans: &mut Vec<(usize, usize)>,
    ) -> Result<(), AllocError>
        ensures found { OnOk result (spans.new.items ≡ match_spans self.old line.now) }
        ensures same { self.new ≡ self.old }
    {
        list_spans(&mut self.matcher, line, spans)
    }

    /// Replaces the content of a vector by the columns, in characters, at which each match of a
    /// line starts and ends (exclusive), from the left.
    pub fn column_pairs_into(
        &mut self,
        line: &str,
        pairs: &mut Vec<(usize, usize)>,
    ) -> Result<(), AllocError>
        ensures found { OnOk result (pairs.new.items ≡ match_column_pairs self.old line.now) }
        ensures starts { OnOk result
            (All (λ columns. columns.0 ≤ length (chars line.now)) pairs.new.items) }
        ensures ends { OnOk result
            (All (λ columns. columns.1 ≤ length (chars line.now)) pairs.new.items) }
        ensures same { self.new ≡ self.old }
    {
        list_column_pairs(&mut self.matcher, line, pairs)
    }

    /// Returns the matches in lines, the first of which has the given row, in the order of the text.
    pub fn text_matches(
        &mut self,
        first_row: usize,
        lines: &[String],
    ) -> Result<Vec<TextMatch>, AllocError>
        requires rows { first_row + length lines.now ≤ usize.MAX }
        requires limit { size_of lines.now ≤ size_limit }
        ensures found { IfOk result (λ matches. matches.items
            ≡ matches_from (match_column_pairs self.old) first_row 0 (map string_bytes lines.now)) }
        ensures same { self.new ≡ self.old }
    {
        let mut matches = Vec::new(self.alloc);
        let mut pairs = Vec::new(self.alloc);
        let mut before = 0;
        for (index, line) in lines.iter().enumerate() {
            self.column_pairs_into(line, &mut pairs)?;
            push_matches(&mut matches, first_row + index, before, pairs.as_slice())?;
            before += column_count(line) + 1;
        }
        Ok(matches)
    }
}
