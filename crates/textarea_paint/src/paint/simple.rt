//! Simple characters and halves of flags: before each of them a cluster begins, after a simple
//! character or a flag.
ghost use Rattle.std.specs.Prelude.{◌≡◌, ◌-◌, ◌≤◌, ◌||◌, length, take, drop, IfSome, chars};
ghost use Rattle.std.specs.Int.{is_in_range};
ghost use Rattle.textarea_paint.specs.Prelude.{begins_apart, early_ranges, in_ranges, is_flag_half, is_simple, late_ranges};

/// The front of a text, the columns that each of its clusters takes, and the text after it.
#[derive(Clone, Copy)]
pub(super) struct Front<'a> {
    pub(super) text: &'a str,
    pub(super) columns: usize,
    pub(super) after: &'a str,
}

/// Splits a text before its end, which is as long as `after`. Each cluster of the first part takes
/// `columns`.
pub(super) fn split_before<'a>(text: &'a str, after: &str, columns: usize) -> Option<Front<'a>>
    requires { length after.now ≤ length text.now }
    ensures text { IfSome result (λ first.
        first.text.now ≡ take (length text.now - length after.now) text.now) }
    ensures after { IfSome result (λ first.
        first.after.now ≡ drop (length text.now - length after.now) text.now) }
    ensures columns { IfSome result (λ first. first.columns ≡ columns) }
{
    let (text, after) = text.split_at_checked(text.len() - after.len())?;
    Some(Front {
        text,
        columns,
        after,
    })
}

/// Returns whether a cluster begins with this text after a simple character or a flag.
pub(super) fn begins_apart(text: &str) -> bool
    ensures { result ≡ begins_apart (chars text.now) }
{
    match text.chars().next() {
        Some(c) => begins_cluster(c),
        None => true,
    }
}

fn begins_cluster(c: char) -> bool
    ensures { result ≡ (is_simple c || is_flag_half c) }
{
    if is_flag_half(c) {
        return true;
    }
    is_simple(c)
}

/// Returns whether no rule that joins characters applies to this one. It is false for some others
/// of which this is also true.
pub(super) fn is_simple(c: char) -> bool
    ensures { result ≡ is_simple c }
{
    if c < '\u{3000}' {
        is_early(c)
    } else {
        is_late(c)
    }
}

/// Returns whether the character is in one of the ranges below those of East Asia.
fn is_early(c: char) -> bool
    ensures { result ≡ in_ranges early_ranges c }
{
    let ascii = is_within(c, ' ', '~');
    let signs = is_within(c, '\u{A0}', '\u{AC}');
    let latin = is_within(c, '\u{AE}', '\u{2FF}');
    let greek = is_within(c, '\u{370}', '\u{482}');
    let cyrillic = is_within(c, '\u{48A}', '\u{590}');
    let hebrew = is_within(c, '\u{5D0}', '\u{5EA}');
    let arabic = is_within(c, '\u{620}', '\u{64A}');
    let persian = is_within(c, '\u{671}', '\u{6D3}');
    let georgian = is_within(c, '\u{10A0}', '\u{10FF}');
    let extended = is_within(c, '\u{1E00}', '\u{200A}');
    let punctuation = is_within(c, '\u{2010}', '\u{2027}');
    let currencies = is_within(c, '\u{2070}', '\u{20CF}');
    let symbols = is_within(c, '\u{2100}', '\u{2CEE}');
    let western = ascii | signs | latin | greek | cyrillic;
    western | hebrew | arabic | persian | georgian | extended | punctuation | currencies | symbols
}

/// Returns whether the character is in one of the ranges of East Asia and those above.
fn is_late(c: char) -> bool
    ensures { result ≡ in_ranges late_ranges c }
{
    let brackets = is_within(c, '\u{3000}', '\u{3029}');
    let hiragana = is_within(c, '\u{3030}', '\u{3098}');
    let ideographs = is_within(c, '\u{309B}', '\u{A66E}');
    let hangul = is_within(c, '\u{AC00}', '\u{D7A3}');
    let wide_forms = is_within(c, '\u{FF00}', '\u{FF9D}');
    let tiles = is_within(c, '\u{1F000}', '\u{1F1E5}');
    let pictures = is_within(c, '\u{1F200}', '\u{1F3FA}');
    let faces = is_within(c, '\u{1F400}', '\u{3FFFF}');
    brackets | hiragana | ideographs | hangul | wide_forms | tiles | pictures | faces
}

pub(super) fn is_within(c: char, first: char, last: char) -> bool
    ensures { result ≡ is_in_range first last c }
{
    first <= c && c <= last
}

/// Returns whether the character is a regional indicator, of which two make a flag.
pub(super) fn is_flag_half(c: char) -> bool
    ensures { result ≡ is_flag_half c }
{
    is_within(c, '\u{1F1E6}', '\u{1F1FF}')
}
