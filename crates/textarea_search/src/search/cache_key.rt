//! What a cache compares before it returns matches: the pattern and the text of the line.
ghost use Rattle.std.specs.Prelude.{◌≡◌, ◌↔◌, IfOk, IsTrue};

use std::alloc::{AllocError, Global};
use std::marker::Model;

/// A pattern and the text of a line. Contracts see the two.
#[derive(Drop)]
pub(crate) struct CacheKey {
    pattern: String,
    line: String,
}

impl Model for CacheKey {
    ghost use Rattle.std.specs.Prelude.{ℕ, List, string_bytes};

    ghost Value = { List ℕ × List ℕ };

    ghost view = { λ key. (string_bytes key.pattern, string_bytes key.line) };
}

impl CacheKey {
    /// Returns whether the key is of this pattern and this line.
    pub(crate) fn is(&self, pattern: &str, line: &str) -> bool
        ensures { IsTrue result ↔ self.now ≡ (pattern.now, line.now) }
    {
        self.pattern.as_str() == pattern && self.line.as_str() == line
    }

    /// Returns the key of this pattern and this line, in the memory of the key before.
    pub(crate) fn of(
        alloc: Global,
        before: Option<CacheKey>,
        pattern: &str,
        line: &str,
    ) -> Result<CacheKey, AllocError>
        ensures { IfOk result (λ key. key ≡ (pattern.now, line.now)) }
    {
        let mut key = match before {
            Some(key) => key,
            None => CacheKey {
                pattern: String::new(alloc),
                line: String::new(alloc),
            },
        };
        key.pattern.clear();
        key.pattern.push_str(pattern)?;
        key.line.clear();
        key.line.push_str(line)?;
        Ok(key)
    }
}
