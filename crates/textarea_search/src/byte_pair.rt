//! Two bytes of a text, which most lines lack at that distance.
ghost use Rattle.std.specs.Prelude.{◌≡◌, ◌+◌, ◌-◌, ◌*◌, ◌<◌, ◌≤◌, false, length, IfSome};
ghost use Rattle.memchr.specs.Find.{Nowhere};

use memchr::arch::all::packedpair::Pair;

// The number of starts that are tested at once in a long line.
const RUN: usize = 32;

/// Two bytes of a text, mostly its rarest ones, and their places in it.
#[derive(Clone, Copy)]
pub(crate) struct BytePair {
    first: usize,
    second: usize,
    first_byte: u8,
    second_byte: u8,
}

impl BytePair {
    ghost use Rattle.textarea_search.specs.BytePairs.{HasPair, IsPairOf, reach_of};

    /// Returns two bytes of a text, or `None` for a text of less than two bytes.
    pub(crate) fn of(text: &[u8]) -> Option<BytePair>
        ensures { IfSome result (λ pair. IsPairOf pair text.now) }
    {
        let pair = Pair::new(text)?;
        let first = pair.index1() as usize;
        let second = pair.index2() as usize;
        Some(BytePair {
            first,
            second,
            first_byte: text[first],
            second_byte: text[second],
        })
    }

    /// Returns whether a line may have the two bytes as far apart as the text has them. Returns
    /// true without a search if a text could start at less than four indices of the line.
    pub(crate) fn may_be_in(self, line: &[u8]) -> bool
        ensures { result ≡ false →
            Nowhere (HasPair self line.now) 0 (length line.now - reach_of self) }
    {
        let starts = line.len().saturating_sub(self.first.max(self.second));
        if starts < 4 {
            return true;
        }
        if starts <= 8 {
            return self.is_in_ends(line, starts, 4);
        }
        if starts <= 16 {
            return self.is_in_ends(line, starts, 8);
        }
        if starts <= RUN {
            return self.is_in_ends(line, starts, 16);
        }
        self.is_in_runs(line, starts)
    }

    // Tests the first `count` starts and the last ones, some of them twice.
    #[inline(always)]
    fn is_in_ends(self, line: &[u8], starts: usize, count: usize) -> bool
        requires short { count ≤ starts }
        requires covered { starts ≤ 2 * count }
        requires within { starts + reach_of self ≤ length line.now }
        ensures { result ≡ false → Nowhere (HasPair self line.now) 0 starts }
    {
        self.is_in_run(line, 0, count) | self.is_in_run(line, starts - count, count)
    }

    // Tests the last 32 starts, and those before by runs of 32, some of them twice.
    #[inline(always)]
    fn is_in_runs(self, line: &[u8], starts: usize) -> bool
        requires short { 32 ≤ starts }
        requires within { starts + reach_of self ≤ length line.now }
        ensures { result ≡ false → Nowhere (HasPair self line.now) 0 starts }
    {
        let last = starts - RUN;
        let mut found = self.is_in_run(line, last, RUN);
        let mut from = 0;
        'runs: while from < last {
            found |= self.is_in_run(line, from, RUN);
            from += RUN;
        }
        found
    }

    // Tests `count` starts without an early exit. Inlined where that is a constant, it becomes a few
    // instructions of vectors.
    #[inline(always)]
    fn is_in_run(self, line: &[u8], from: usize, count: usize) -> bool
        requires { from + count + reach_of self ≤ length line.now }
        ensures { result ≡ false → Nowhere (HasPair self line.now) from (from + count) }
    {
        let mut found = false;
        for k in 0..count {
            found |= self.is_at(line, from + k);
        }
        found
    }

    #[inline(always)]
    fn is_at(self, line: &[u8], start: usize) -> bool
        requires { start + reach_of self < length line.now }
        ensures { result ≡ false → ¬ HasPair self line.now start }
    {
        (line[start + self.first] == self.first_byte)
            & (line[start + self.second] == self.second_byte)
    }
}
