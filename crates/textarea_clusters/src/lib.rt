//! Where a cursor stops that goes by whole characters: at the edges of grapheme clusters, outside
//! of atomic ranges.
#![tactic(auto)]

pub mod edges;
pub mod stops;
