//! Laws of wrapping. Each is the contract of a function with an empty body.
ghost use Rattle.std.specs.Prelude.{◌≡◌, ◌<◌, ◌≤◌, ◌⊎◌, ◌++◌, ℕ, List, length};
ghost use Rattle.textarea_wrap.specs.Prelude.{WrapMode, end_column, stretch_width, HasFewestGlyphRows, HasFewestWordRows, IsBlankCluster, IsFittingRow, IsFittingStretch, Stretch, line_units, IsWrapped};
ghost use Rattle.textarea_wrap.specs.declared.wrap.WrapMode.TheVariants as mode;

/// A line wraps in only one way in each mode, at each width and tab length.
pub fn one_wrapping()
    ensures { (mode : WrapMode) (tab_len width : ℕ) (line : List ℕ) (ranges others : List (ℕ × ℕ)) →
        IsWrapped mode tab_len width line ranges → IsWrapped mode tab_len width line others → ranges
        ≡ others }
{}

/// A line that isn't empty gets the fewest visual rows possible: in the mode `Glyph` of all splits
/// between grapheme clusters into rows that fit or are one cluster, in the word modes of all splits
/// into runs of units that fit and wider units, each split into rows as in `Glyph`.
pub fn fewest_rows()
    ensures glyphs { (tab_len width : ℕ) (line : List ℕ) (ranges : List (ℕ × ℕ)) →
        0 < length line → IsWrapped mode.Glyph tab_len width line ranges →
        HasFewestGlyphRows tab_len width line (length ranges) }
    ensures words { (tab_len width : ℕ) (line : List ℕ) (ranges : List (ℕ × ℕ)) →
        0 < length line → IsWrapped mode.Word tab_len width line ranges →
        HasFewestWordRows tab_len width line (length ranges) }
    ensures words_or_glyphs { (tab_len width : ℕ) (line : List ℕ) (ranges : List (ℕ × ℕ)) →
        0 < length line → IsWrapped mode.WordOrGlyph tab_len width line ranges →
        HasFewestWordRows tab_len width line (length ranges) }
{}

/// A run that begins later is never wider, tabs included: characters that begin at a later column
/// end at no earlier one. So segments are no wider without those before or after them.
pub fn never_wider_later()
    ensures columns { (tab_len column later : ℕ) (characters : List ℕ) → column ≤ later →
        end_column tab_len column characters ≤ end_column tab_len later characters }
    ensures back { (tab_len : ℕ) (front back : Stretch) →
        stretch_width tab_len back ≤ stretch_width tab_len (front ++ back) }
    ensures front { (tab_len : ℕ) (front back : Stretch) →
        stretch_width tab_len front ≤ stretch_width tab_len (front ++ back) }
{}

/// If a run fits, it also fits without its front. This is true for rows of clusters, and for units,
/// except that a single whitespace cluster may remain, which is one row anyway.
pub fn rest_fits()
    ensures clusters { (tab_len width : ℕ) (front back : Stretch) → 0 < length back →
        IsFittingRow tab_len width (front ++ back) → IsFittingRow tab_len width back }
    ensures units { (tab_len width : ℕ) (line : List ℕ) (above front back later : Stretch) →
        above ++ ((front ++ back) ++ later) ≡ line_units line → 0 < length back →
        IsFittingStretch tab_len width (front ++ back) later →
        IsFittingStretch tab_len width back later ⊎ IsBlankCluster back }
{}
