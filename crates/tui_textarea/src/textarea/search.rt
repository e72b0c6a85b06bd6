//! The search pattern, and the searches for it.
ghost use Rattle.std.specs.Prelude.{◌≡◌, [], Some, None, OnOk, OnErr, IsOk, IfOk, IfErr, IfSome, is_some};
ghost use Rattle.std.specs.Option.{option_copied};
ghost use Rattle.textarea_data.specs.declared.range.AtomicCursorBias.TheVariants.{Backward, Forward};
ghost use Rattle.textarea_search.specs.Starts.{found_start};
ghost use Rattle.tui_textarea.specs.WholeMatches.{cluster_starts};
ghost use Rattle.tui_textarea.specs.Prelude.{IsPlace, IsErrorFor, IsOwnFailure, IsNewFailure, IsNoSyntaxError, IsPatternFailure, found_match, match_count, match_index, next_match, previous_match, after_search, text_pattern, lines, settled, starts_in, with_document, with_pattern, with_search_text};

use crate::matches::{cluster_starts_in, found_start, index_at};
use crate::textarea::TextArea;
use std::alloc::AllocError;
use textarea_data::cursor::CursorUnit;
use textarea_data::range::AtomicCursorBias;
use textarea_document::Document;
use textarea_search::search::plain_text::{finds_text, text_pattern};
use textarea_search::search::{Direction, SearchError};

impl TextArea<'_> {
    /// Sets the search pattern, in the syntax of `regex`; an empty one removes the pattern. An
    /// empty pattern and the present one are always accepted, and need no memory.
    pub fn set_search_pattern(&mut self, pattern: &str) -> Result<(), SearchError>
        ensures ok { OnOk result (self.new ≡ with_pattern self.old pattern.now) }
        ensures err { OnErr result (self.new ≡ self.old) }
        ensures empty { pattern.now ≡ [] → IsOk result }
        ensures present { self.old.pattern ≡ Some pattern.now → IsOk result }
        ensures pattern_failure { IfErr result (IsPatternFailure pattern.now) }
        ensures carried { IfErr result (IsErrorFor pattern.now) }
        ensures own { IfErr result (IsOwnFailure pattern.now) }
    {
        let alloc = self.allocator();
        self.search.set_pattern(alloc, pattern)
    }

    /// Sets a search pattern that finds the text as it is: each character that has a meaning in the
    /// syntax of `regex` is escaped. The empty text removes the pattern, and needs no memory. With
    /// `ignore_case`, letters of either case match. With `whole_word`, each end of the text that is
    /// a word's character must be an end of a word. An error is never one of syntax.
    pub fn set_search_text(
        &mut self,
        text: &str,
        ignore_case: bool,
        whole_word: bool,
    ) -> Result<(), SearchError>
        ensures ok { OnOk result
            (self.new ≡ with_search_text self.old text.now ignore_case whole_word) }
        ensures err { OnErr result (self.new ≡ self.old) }
        ensures empty { text.now ≡ [] → IsOk result }
        ensures pattern_failure { IfErr result
            (IsPatternFailure (text_pattern text.now ignore_case whole_word)) }
        ensures carried { IfErr result
            (IsErrorFor (text_pattern text.now ignore_case whole_word)) }
        ensures is_new { IfErr result
            (IsNewFailure self.old (text_pattern text.now ignore_case whole_word)) }
        ensures syntax { IfErr result IsNoSyntaxError }
    {
        finds_text(text, ignore_case, whole_word);
        let alloc = self.allocator();
        match text_pattern(alloc, text, ignore_case, whole_word) {
            Ok(pattern) => self.set_search_pattern(pattern.as_str()),
            Err(error) => Err(SearchError::Memory(error)),
        }
    }

    /// Returns the number of the search pattern's matches in the whole text; 0 without a pattern. A
    /// cursor that goes by clusters doesn't count a match at an end of which none begins or ends.
    pub fn match_count(&self) -> Result<usize, AllocError>
        ensures count { IfOk result (λ count. count ≡ match_count self.now) }
        ensures no_pattern { self.now.pattern ≡ None → IsOk result }
    {
        match self.settings.cursor_unit {
            CursorUnit::Character => self.search.count(self.document.lines()),
            CursorUnit::Cluster => {
                let starts = self.cluster_starts()?;
                Ok(starts.len())
            }
        }
    }

    /// Returns the number, counted from 0 in the order of the text, of the match that starts at the
    /// cursor; `None` if none does, and without a pattern.
    pub fn match_index(&self) -> Result<Option<usize>, AllocError>
        ensures index { IfOk result (λ index. index ≡ match_index self.now) }
        ensures no_pattern { self.now.pattern ≡ None → IsOk result }
    {
        let cursor = self.document.cursor();
        match self.settings.cursor_unit {
            CursorUnit::Character => self.search.index(self.document.lines(), cursor),
            CursorUnit::Cluster => {
                let starts = self.cluster_starts()?;
                Ok(index_at(cursor, starts.as_slice()))
            }
        }
    }

    /// Returns the text of the search pattern, if one is set.
    pub fn search_pattern(&self) -> Option<&str>
        ensures { option_copied result ≡ self.now.pattern }
    {
        self.search.pattern()
    }

    /// Moves the cursor to the next start of a match, and returns whether there was one: the first
    /// after the cursor or, with `match_cursor`, at it, and past the text's end the first of all.
    /// A cursor that goes by clusters skips the matches that `match_count` does. An open selection
    /// stays open, and a run of typing ends. Without a match nothing changes.
    pub fn search_forward(&mut self, match_cursor: bool) -> Result<bool, AllocError>
        ensures found { IfOk result (λ found. found ≡ is_some (next_match self.old match_cursor)) }
        ensures ok { OnOk result
            (self.new ≡ settled Forward
            (after_search self.old (next_match self.old match_cursor))) }
        ensures place { OnOk result
            (IfSome (next_match self.old match_cursor) (IsPlace self.old.document.text)) }
        ensures err { OnErr result (self.new ≡ self.old) }
        ensures no_pattern { self.old.pattern ≡ None → IsOk result }
    {
        let found = self.found_match(Direction::Forward, match_cursor)?;
        let went = self.go_to_match(found);
        self.settle(AtomicCursorBias::Forward);
        Ok(went)
    }

    /// Moves the cursor to the last start of a match before it or, with `match_cursor`, at it, and
    /// past the text's start to the last of all; returns whether there was one. An open selection
    /// stays open, and a run of typing ends. Without a match nothing changes.
    pub fn search_back(&mut self, match_cursor: bool) -> Result<bool, AllocError>
        ensures found { IfOk result
            (λ found. found ≡ is_some (previous_match self.old match_cursor)) }
        ensures ok { OnOk result
            (self.new ≡ settled Backward
            (after_search self.old (previous_match self.old match_cursor))) }
        ensures place { OnOk result
            (IfSome (previous_match self.old match_cursor) (IsPlace self.old.document.text)) }
        ensures err { OnErr result (self.new ≡ self.old) }
        ensures no_pattern { self.old.pattern ≡ None → IsOk result }
    {
        let found = self.found_match(Direction::Back, match_cursor)?;
        let went = self.go_to_match(found);
        self.settle(AtomicCursorBias::Backward);
        Ok(went)
    }

    // Returns the position that a search from the cursor finds.
    pub(super) fn found_match(
        &mut self,
        direction: Direction,
        match_cursor: bool,
    ) -> Result<Option<(usize, usize)>, AllocError>
        ensures found { IfOk result
            (λ place. place ≡ found_match direction self.old match_cursor) }
        ensures place { OnOk result
            (IfSome (found_match direction self.old match_cursor)
            (IsPlace self.old.document.text)) }
        ensures same { self.new ≡ self.old }
        ensures no_pattern { self.old.pattern ≡ None → IsOk result }
    {
        match self.settings.cursor_unit {
            CursorUnit::Character => self.found_by_characters(direction, match_cursor),
            CursorUnit::Cluster => {
                let starts = self.cluster_starts()?;
                let cursor = self.document.cursor();
                Ok(found_start(direction, starts.as_slice(), cursor, match_cursor))
            }
        }
    }

    // The same among all matches.
    fn found_by_characters(
        &mut self,
        direction: Direction,
        match_cursor: bool,
    ) -> Result<Option<(usize, usize)>, AllocError>
        ensures found { IfOk result (λ place. place ≡ found_start direction
            (starts_in self.old.pattern self.old.document.text) self.old.document.cursor
            match_cursor) }
        ensures place { OnOk result (IfSome (found_start direction
            (starts_in self.old.pattern self.old.document.text) self.old.document.cursor
            match_cursor) (IsPlace self.old.document.text)) }
        ensures same { self.new ≡ self.old }
        ensures no_pattern { self.old.pattern ≡ None → IsOk result }
    {
        let cursor = self.document.cursor();
        let lines = self.document.lines();
        self.drawing
            .find_match(&self.search, direction, lines, cursor, match_cursor)
    }

    // Returns where the matches start that cut no cluster, in the order of the text.
    fn cluster_starts(&self) -> Result<Vec<(usize, usize)>, AllocError>
        ensures found { IfOk result (λ starts. starts.items
            ≡ cluster_starts self.now.pattern (lines self.now.document.text)) }
        ensures no_pattern { self.now.pattern ≡ None → IsOk result }
    {
        let lines = self.document.lines();
        cluster_starts_in(self.allocator(), &self.search, lines)
    }

    // Returns the position that a search forward from a document's cursor finds in the document.
    pub(super) fn next_match_in(
        &mut self,
        document: &Document,
        match_cursor: bool,
    ) -> Result<Option<(usize, usize)>, AllocError>
        ensures found { IfOk result (λ place. place
            ≡ next_match (with_document self.old document.now) match_cursor) }
        ensures place { OnOk result
            (IfSome (next_match (with_document self.old document.now) match_cursor)
            (IsPlace document.now.text)) }
        ensures same { self.new ≡ self.old }
    {
        let cursor = document.cursor();
        let lines = document.lines();
        let direction = Direction::Forward;
        match self.settings.cursor_unit {
            CursorUnit::Character => {
                self.drawing
                    .find_match(&self.search, direction, lines, cursor, match_cursor)
            }
            CursorUnit::Cluster => {
                let starts = cluster_starts_in(self.allocator(), &self.search, lines)?;
                Ok(found_start(direction, starts.as_slice(), cursor, match_cursor))
            }
        }
    }

    // Moves the cursor to the found position, if there is one, and returns whether there is.
    pub(super) fn go_to_match(&mut self, found: Option<(usize, usize)>) -> bool
        requires { IfSome found (IsPlace self.old.document.text) }
        ensures went { result ≡ is_some found }
        ensures state { self.new ≡ after_search self.old found }
    {
        let Some(place) = found else {
            return false;
        };
        self.document.move_to(place, self.document.anchor());
        true
    }
}
