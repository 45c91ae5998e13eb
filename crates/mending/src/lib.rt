//! What an edit of a plan does to its unsafe pairs.
#![tactic(auto)]

mod left;

pub use left::left_by;
