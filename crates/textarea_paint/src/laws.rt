//! Laws of drawing. Each is the contract of a function without a body.
ghost use Rattle.std.specs.Prelude.{ℕ, List, filter};
ghost use Rattle.textarea_paint.specs.Prelude.{Cluster, IsLongestFront, fitting, is_no_wider};

/// With a line in the middle or at the right of an area, only clusters no wider than the area are
/// drawn, and of these the longest prefix whose widths sum to at most the area's width.
pub fn longest_front_is_drawn()
    ensures { (width : ℕ) (clusters : List Cluster) →
        IsLongestFront width (filter (is_no_wider width) clusters) (fitting width clusters) }
{}
