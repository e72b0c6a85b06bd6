//! Laws of positions, each stated as the contract of a function without a body.
ghost use Rattle.std.specs.Prelude.{List};
ghost use Rattle.textarea_text.specs.Prelude.{Symbol, IsPlace, IsUpTo, Place, Fits, Splice, place_before, FollowsText, Stays};

/// A position at or before the start of a splice that fits stays, with the text before it. One at
/// or after its end moves with the text after it. Both are positions of the text after the splice.
pub fn places_follow_the_text()
    ensures before { (text : List Symbol) (splice : Splice) (place : Place)
        → Fits text splice → IsPlace text place → IsUpTo place splice.place
        → Stays text splice place }
    ensures after { (text : List Symbol) (splice : Splice) (place : Place)
        → Fits text splice → IsPlace text place → IsUpTo (place_before splice) place
        → FollowsText text splice place }
{}
