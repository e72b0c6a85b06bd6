//! A pattern to search for, its matches in a line, and the search from a cursor to the next match.
mod cache_key;
mod caching_matcher;
mod column_pairs;
mod counts;
mod direction;
mod line_matcher;
mod line_starts;
mod lines;
mod listed;
mod listed_match;
mod match_cache;
mod matches;
pub mod plain_text;
mod sparse_matches;
mod state;
mod text_matches;

pub use crate::error::SearchError;
pub use caching_matcher::CachingMatcher;
pub use direction::Direction;
pub use line_matcher::LineMatcher;
pub use match_cache::MatchCache;
pub use matches::Matches;
pub use state::Search;
pub use text_matches::TextMatch;
