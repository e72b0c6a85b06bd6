//! Laws of lines with their visual rows. Each is the contract of a function without effect.
ghost use Rattle.std.specs.Prelude.{◌≡◌, ◌<◌, ◌≤◌, ℕ, List, Option};
ghost use Rattle.textarea_lines.specs.Prelude.{Place, CanApply, Fits, Splice, Symbol, RowsView, IsFoundAbove, IsFoundBelow, HasLayout, IsChangedFrom, WrapsAtOnce, applied_each, numbered, wrapped_once, WrapsForSplices, WrapsAllLines, WrapsForSettings, WrapsForSplice, WrapsForWidth, TextAndLayout, applied_to, at_width, layout_from_scratch, with_settings, wrapping_at, wrapping_of, BorrowedRows, IsViewOf, LayoutSettings};

use textarea_screen_map::laws::{one_map, one_visual_position};

/// A text with its layout has only one list of right rows. So a contract that mentions right rows,
/// such as that of `row_count`, is about that list.
pub fn one_list_of_rows()
    ensures { (text_layout : TextAndLayout) (rows others : List RowsView) →
        HasLayout text_layout rows → HasLayout text_layout others → rows ≡ others }
{
    one_map();
}

/// The results of `above` and `below` depend only on the text, its layout and the position.
pub fn one_place_up_and_down()
    ensures above { (text_layout : TextAndLayout) (place : Place) (found other : Option Place) →
        IsFoundAbove text_layout place found → IsFoundAbove text_layout place other → found ≡
        other }
    ensures below { (text_layout : TextAndLayout) (place : Place) (found other : Option Place) →
        IsFoundBelow text_layout place found → IsFoundBelow text_layout place other → found ≡
        other }
{
    one_list_of_rows();
    one_visual_position();
}

/// A text with its layout has only one view.
pub fn one_view()
    ensures { (text_layout : TextAndLayout) (view other : BorrowedRows) →
        IsViewOf text_layout view → IsViewOf text_layout other → view ≡ other }
{
    one_list_of_rows();
}

/// Setting an inner width of at least one column wraps lines as measuring at that width does.
pub fn wrapped_as_measured()
    ensures { (text_layout : TextAndLayout) (inner_width : ℕ) → 0 < inner_width →
        wrapping_of (with_settings text_layout (at_width text_layout inner_width))
        ≡ wrapping_at text_layout inner_width }
{}

/// Other settings don't change the text, and are its settings then. Setting the current settings
/// changes nothing and wraps nothing.
pub fn settings_stay()
    ensures text { (text_layout : TextAndLayout) (settings : LayoutSettings) →
        (with_settings text_layout settings).text ≡ text_layout.text }
    ensures put { (text_layout : TextAndLayout) (settings : LayoutSettings) →
        (with_settings text_layout settings).layout.settings ≡ settings }
    ensures again { (text_layout : TextAndLayout) → with_settings text_layout
        text_layout.layout.settings ≡ text_layout }
{}

/// The lines that a splice wraps. If it doesn't change the width of the map, the count increases by
/// its breaks plus one if it inserts, and by one if it removes. The rows of the lines that it
/// touches have ticks above the old count, and all other lines keep their rows, tick included. If
/// it changes that width, each line is wrapped, and the count increases by the new number of lines.
pub fn splices_wrap()
    ensures { (text_layout : TextAndLayout) (splice : Splice) → Fits text_layout.text splice →
        WrapsForSplice text_layout splice (applied_to text_layout splice) }
{
    one_map();
}

/// What splices wrap that are made at once, on the numbered lines. If they don't change the width of
/// the map, each line that one of them touched is wrapped once, all other lines keep their rows,
/// tick included, and the count increases by the number of touched lines. If they change it, each
/// line is wrapped once.
pub fn splices_wrap_at_once()
    ensures { (text_layout : TextAndLayout) (splices : List Splice) →
        CanApply text_layout.text splices → WrapsAtOnce text_layout splices
        (wrapped_once text_layout (applied_each (numbered text_layout) splices)) }
{
    one_map();
}

/// What `wrapped_once` takes: the numbered lines, and what a change makes of such lines.
pub fn changes_of_numbered()
    ensures none { (text_layout : TextAndLayout) →
        IsChangedFrom text_layout (numbered text_layout) }
    ensures more { (before changed : TextAndLayout) (splice : Splice) →
        IsChangedFrom before changed → Fits changed.text splice →
        IsChangedFrom before (applied_to changed splice) }
{}

/// The other calls that wrap lines. Another inner width wraps each line if it changes the width of
/// the map, other settings if they change how lines are wrapped, and replacing all lines always.
/// The count then increases by the number of lines. Otherwise count and ticks don't change.
pub fn settings_wrap()
    ensures width { (text_layout : TextAndLayout) (inner_width : ℕ) →
        WrapsForWidth text_layout (with_settings text_layout (at_width text_layout inner_width)) }
    ensures settings { (text_layout : TextAndLayout) (settings : LayoutSettings) →
        WrapsForSettings text_layout settings (with_settings text_layout settings) }
    ensures lines { (text_layout : TextAndLayout) (text : List Symbol) →
        WrapsAllLines text_layout
        (layout_from_scratch text_layout.layout.settings text_layout.layout.count text) }
{}

/// The count never decreases.
pub fn count_never_falls()
    ensures splices { (old new : TextAndLayout) (splices : List Splice) → WrapsForSplices old
        splices new →
        old.layout.count ≤ new.layout.count }
    ensures at_once { (old new : TextAndLayout) (splices : List Splice) → WrapsAtOnce old splices
        new → old.layout.count ≤ new.layout.count }
    ensures width { (old new : TextAndLayout) → WrapsForWidth old new →
        old.layout.count ≤ new.layout.count }
    ensures settings { (old new : TextAndLayout) (settings : LayoutSettings) →
        WrapsForSettings old settings new → old.layout.count ≤ new.layout.count }
    ensures lines { (old new : TextAndLayout) → WrapsAllLines old new →
        old.layout.count ≤ new.layout.count }
{}
