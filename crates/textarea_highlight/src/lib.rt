//! One row of text as styled spans, which borrow from the row where it is shown unchanged.
#![tactic(auto)]

pub mod highlight;
pub mod laws;
