//! The search for a match, which uses the cache of matches.
ghost use Rattle.std.specs.Prelude.{◌≡◌, ◌<◌, length};
ghost use Rattle.tui_textarea.specs.DrawingPrelude.{IsFound};

use super::Drawing;
use std::alloc::AllocError;
use textarea_search::search::{Direction, Search};

impl Drawing {
    /// Returns the match start that `Search::find` returns. The cache may store the matches of the
    /// cursor's line.
    pub fn find_match(
        &mut self,
        search: &Search,
        direction: Direction,
        lines: &[String],
        cursor: (usize, usize),
        match_cursor: bool,
    ) -> Result<Option<(usize, usize)>, AllocError>
        requires { cursor.0 < length lines.now }
        ensures found { IsFound direction search.now lines.now cursor match_cursor result }
        ensures same { self.new ≡ self.old }
    {
        search.find_cached(
            &mut self.match_cache,
            direction,
            lines,
            cursor,
            match_cursor,
        )
    }
}
