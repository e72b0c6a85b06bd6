//! Searches, worked by hand.
use crate::cases::check_each;
use crate::texts::{Place, strings};
use regex::Regex;
use std::alloc::{AllocError, Global};
use std::process::Abort;
use std::test::Fail;
use textarea_search::search::{Direction, MatchCache, Matches, Search, SearchError};

/// A pattern, lines, a position, and the positions of repeated searches from it: forward, and back.
type Led = (
    &'static str,
    &'static [&'static str],
    Place,
    &'static [Place],
    &'static [Place],
);

static LED: [Led; 4] = [
    (
        "fo+",
        &["fooo foo", "foo fo foo fooo", "foooo"],
        (1, 4),
        &[(1, 7), (1, 11), (2, 0), (0, 0), (0, 5), (1, 0), (1, 4)],
        &[(1, 0), (0, 5), (0, 0), (2, 0), (1, 11), (1, 7), (1, 4)],
    ),
    (
        "fo+",
        &["foo fo foo fooo"],
        (0, 4),
        &[(0, 7), (0, 11), (0, 0), (0, 4)],
        &[(0, 0), (0, 11), (0, 7), (0, 4)],
    ),
    // The pattern matches the empty text at the end of each line.
    (
        "$",
        &["ab", "c"],
        (0, 0),
        &[(0, 2), (1, 1), (0, 2)],
        &[(1, 1), (0, 2), (1, 1)],
    ),
    // Columns count characters of any width: a wide one, and one with a combining mark after it.
    (
        "x",
        &["犬x", "", "ab犬e\u{301}x"],
        (0, 0),
        &[(0, 1), (2, 5), (0, 1)],
        &[(2, 5), (0, 1), (2, 5)],
    ),
];

/// A column of the line `foo foo`, and the columns of the matches of `foo` from it, where a match
/// at the column counts: forward, and back. A column past the end is after all matches.
static COUNTED: [(usize, usize, usize); 5] = [
    (0, 0, 0),
    (1, 4, 0),
    (4, 4, 4),
    (7, 0, 4),
    (usize::MAX, 0, 4),
];

/// A pattern, and lines with their matches: the byte offsets of each match's start and end.
type Listed = (
    &'static str,
    &'static [(&'static str, &'static [(usize, usize)])],
);

static LISTED: [Listed; 6] = [
    ("fo+", &[("fo foo bar fooo", &[(0, 2), (3, 6), (11, 15)])]),
    ("o*", &[("foo", &[(0, 0), (1, 3)])]),
    ("aa", &[("aaaa", &[(0, 2), (2, 4)])]),
    ("x", &[("犬x", &[(3, 4)])]),
    ("x", &[("", &[])]),
    (
        "fo+",
        &[("foo bar fo", &[(0, 3), (8, 10)]), ("a fo", &[(2, 4)])],
    ),
];

// A search for a pattern, or one that finds nothing if the pattern is rejected.
fn search_for(alloc: Global, pattern: &str) -> Search {
    let mut search = Search::default();
    drop(search.set_pattern(alloc, pattern));
    search
}

// The match from a position, if there is such a line.
fn search_result(
    search: &Search,
    lines: &[String],
    from: Place,
    is_forward: bool,
    counts_the_place: bool,
) -> Result<Option<Place>, AllocError> {
    if from.0 >= lines.len() {
        Ok(None)
    } else if is_forward {
        search.forward(lines, from, counts_the_place)
    } else {
        search.back(lines, from, counts_the_place)
    }
}

// Whether repeated searches, each from the last match, find these positions.
fn leads_along(
    search: &Search,
    lines: &[String],
    start: Place,
    places: &[Place],
    is_forward: bool,
) -> Result<bool, AllocError> {
    let mut from = start;
    for place in places {
        if search_result(search, lines, from, is_forward, false)? != Some(*place) {
            return Ok(false);
        }
        from = *place;
    }
    Ok(true)
}

fn is_led(alloc: Global, case: &Led) -> Result<bool, AllocError> {
    let (pattern, texts, start, forth, back) = *case;
    let search = search_for(alloc, pattern);
    let lines = strings(alloc, texts)?;
    let is_led_forth = leads_along(&search, lines.as_slice(), start, forth, true)?;
    Ok(is_led_forth && leads_along(&search, lines.as_slice(), start, back, false)?)
}

// The matches from a column of a line, forward and back, where one at the column counts.
fn results_around(
    alloc: Global,
    search: &Search,
    text: &str,
    column: usize,
) -> Result<(Option<Place>, Option<Place>), AllocError> {
    let lines = strings(alloc, &[text])?;
    let forth = search_result(search, lines.as_slice(), (0, column), true, true)?;
    let back = search_result(search, lines.as_slice(), (0, column), false, true)?;
    Ok((forth, back))
}

fn is_counted(alloc: Global, case: &(usize, usize, usize)) -> Result<bool, AllocError> {
    let (column, forth, back) = *case;
    let found = results_around(alloc, &search_for(alloc, "foo"), "foo foo", column)?;
    Ok(found == (Some((0, forth)), Some((0, back))))
}

fn are_all(found: &mut Matches, spans: &[(usize, usize)]) -> bool {
    for span in spans {
        if found.next() != Some(*span) {
            return false;
        }
    }
    found.next().is_none()
}

fn lists(search: &Search, line: &str, spans: &[(usize, usize)]) -> Result<bool, AllocError> {
    match &mut search.matches(line)? {
        Some(found) => Ok(are_all(found, spans)),
        None => Ok(false),
    }
}

// Whether the lines have these matches, each by itself, and one after another with one matcher.
fn is_listed(alloc: Global, (pattern, lines): &Listed) -> Result<bool, AllocError> {
    let search = search_for(alloc, pattern);
    let mut found = Vec::new(alloc);
    let Some(mut matcher) = search.line_matcher()? else {
        return Ok(false);
    };
    for (line, spans) in *lines {
        matcher.spans_into(line, &mut found)?;
        if found.as_slice() != *spans || !lists(&search, line, spans)? {
            return Ok(false);
        }
    }
    Ok(true)
}

#[test]
fn searches_in_lines(rt: HostRuntime) -> Result<(), Fail> {
    check_each(&rt, &LED, is_led)?;
    check_each(&rt, &COUNTED, is_counted)?;
    check_each(&rt, &LISTED, is_listed)
}

/// A pattern, a line with its number, and its matches.
type Cached = (
    &'static str,
    (usize, &'static str),
    &'static [(usize, usize)],
);

/// Lines whose matches are listed one after another, with a cache for one line.
static CACHED: [Cached; 5] = [
    ("fo+", (0, "foo fo"), &[(0, 3), (4, 6)]),
    ("fo+", (0, "foo fo"), &[(0, 3), (4, 6)]),
    ("fo+", (7, "a fo"), &[(2, 4)]),
    ("o", (7, "a fo"), &[(3, 4)]),
    ("", (7, "a fo"), &[]),
];

fn are_same(spans: &[(usize, usize)], listed: &[(usize, usize)]) -> bool {
    spans == listed
}

// Lists the matches of a line into a vector that may have others.
fn list_cached(
    search: &Search,
    cached: &mut MatchCache,
    (number, line): (usize, &str),
    spans: &mut Vec<(usize, usize)>,
) -> Result<(), AllocError> {
    let mut matcher = search.caching_matcher(cached, 1)?;
    matcher.spans_into(number, line, spans)
}

// Whether the pattern is set and the line then has these matches.
fn lists_cached(
    alloc: Global,
    search: &mut Search,
    cached: &mut MatchCache,
    spans: &mut Vec<(usize, usize)>,
    (pattern, line, listed): &Cached,
) -> Result<bool, AllocError> {
    let is_set = search.set_pattern(alloc, pattern).is_ok();
    list_cached(search, cached, *line, spans)?;
    Ok(is_set && are_same(spans, listed))
}

#[test]
fn cached_line_after_line(rt: HostRuntime) -> Result<(), Fail> {
    let mut search = Search::default();
    let mut cached = MatchCache::new(rt.alloc());
    let mut spans = Vec::new(rt.alloc());
    check_each(&rt, &CACHED, |alloc, line| {
        lists_cached(alloc, &mut search, &mut cached, &mut spans, line)
    })
}

/// A direction, a column, and the column of the next match.
type Stored = (Direction, usize, usize);

/// Searches one after another with a cache, in a line of 140,000 bytes. From the second search for a
/// pattern with syntax on, the cache has some of the 70,000 matches.
static STORED: [Stored; 8] = [
    (Direction::Forward, 0, 2),
    (Direction::Forward, 2, 4),
    (Direction::Forward, 4, 6),
    (Direction::Forward, 100_001, 100_002),
    (Direction::Back, 100_001, 100_000),
    (Direction::Back, 100_000, 99_998),
    (Direction::Forward, 139_998, 0),
    (Direction::Back, 0, 139_998),
];

// The text as often as that, in a line.
fn repeated(alloc: Global, text: &str, count: usize) -> Result<Vec<String>, AllocError> {
    let mut line = String::new(alloc);
    for _ in 0..count {
        line.push_str(text)?;
    }
    let mut lines = Vec::new(alloc);
    lines.push(line)?;
    Ok(lines)
}

fn is_stored(
    search: &Search,
    cached: &mut MatchCache,
    lines: &[String],
    (direction, column, found): &Stored,
) -> Result<bool, AllocError> {
    if lines.is_empty() {
        return Ok(false);
    }
    let result = search.find_cached(cached, *direction, lines, (0, *column), false)?;
    Ok(result == Some((0, *found)))
}

fn finds_each_stored(rt: &(impl Abort + AllocGlobal), pattern: &str) -> Result<(), Fail> {
    let search = search_for(rt.alloc(), pattern);
    let lines = repeated(rt.alloc(), "ab", 70_000)?;
    let mut cached = MatchCache::new(rt.alloc());
    check_each(rt, &STORED, |_, case| {
        is_stored(&search, &mut cached, lines.as_slice(), case)
    })
}

#[test]
fn searches_in_a_long_line(rt: HostRuntime) -> Result<(), Fail> {
    finds_each_stored(&rt, "[a]")?;
    finds_each_stored(&rt, "a")
}

/// A pattern, whether it is set, and the pattern that is searched for then.
type Setting = (&'static str, bool, Option<&'static str>);

static SETTINGS: [Setting; 4] = [
    ("fo+", true, Some("fo+")),
    // Not in the syntax of `regex`: rejected, and the search stays.
    ("(hello", false, Some("fo+")),
    ("fo+", true, Some("fo+")),
    ("", true, None),
];

// Whether a pattern is set or, if it is not in the syntax of `regex`, rejected.
fn is_accepted(alloc: Global, search: &mut Search, pattern: &str, is_set: bool) -> bool {
    match &search.set_pattern(alloc, pattern) {
        Ok(()) => is_set,
        Err(SearchError::Pattern(regex::Error::Syntax(_))) => !is_set,
        Err(_) => false,
    }
}

// Whether this pattern is searched for, also by a copy. Without a pattern nothing is found.
fn is_for(alloc: Global, search: &Search, pattern: Option<&str>) -> Result<bool, AllocError> {
    if search.pattern() != pattern || search.clone()?.pattern() != pattern {
        return Ok(false);
    }
    let finds_nothing = results_around(alloc, search, "foo", 0)? == (None, None);
    Ok(pattern.is_some() || finds_nothing && search.matches("foo")?.is_none())
}

#[test]
fn patterns(rt: HostRuntime) -> Result<(), Fail> {
    let mut search = Search::default();
    check_each(&rt, &SETTINGS, |alloc, (pattern, is_set, wanted)| {
        Ok(is_accepted(alloc, &mut search, pattern, *is_set) && is_for(alloc, &search, *wanted)?)
    })
}

/// Texts that `regex` rejects: seven with wrong syntax, and one that nests deeper than 250.
static NO_PATTERNS: [&str; 8] = [
    "(hello",
    "hello)",
    "[a",
    "a{2,1}",
    "*",
    "(?<n>a)(?<n>b)",
    "\\",
    "(((((((((((((((((((((((((((((((((((((((((((((((((((((((((((((((((((((((((((((((((((((((((((((((((((((((((((((((((((((((((((((((((((((((((((((((((((((((((((((((((((((((((((((((((((((((((((((((((((((((((((((((((((((((((((((((((((((((((((((((((((((((((((a)))))))))))))))))))))))))))))))))))))))))))))))))))))))))))))))))))))))))))))))))))))))))))))))))))))))))))))))))))))))))))))))))))))))))))))))))))))))))))))))))))))))))))))))))))))))))))))))))))))))))))))))))))))))))))))))))))))))))))))))))))))))))))",
];

// Whether a search returns the same error as `regex`.
fn is_carried(alloc: Global, pattern: &str) -> bool {
    let mut search = Search::default();
    let outcome = search.set_pattern(alloc, pattern);
    match (&outcome, &Regex::new(alloc, pattern)) {
        (Err(SearchError::Pattern(error)), Err(wanted)) => {
            error == wanted && *error != regex::Error::OutOfMemory
        }
        _ => false,
    }
}

#[test]
fn errors_of_regex(rt: HostRuntime) -> Result<(), Fail> {
    check_each(&rt, &NO_PATTERNS, |alloc, pattern| {
        Ok(is_carried(alloc, pattern))
    })
}
