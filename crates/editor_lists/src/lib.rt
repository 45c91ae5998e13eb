//! What an editor lists of a text: what is wrong, what can be done about that, and where names stand.
//!
//! `publishing` has what is wrong, and `actions` what can be done about it, with `joining` for what other files have. `references` has where a name stands, `renaming` whether
//! another one may, and `rewriting` writes edits. `symbols` has what stands in a text, `inlays` and `lenses` what is shown beside it.
#![tactic(auto)]

mod actions;
mod inlays;
mod joining;
mod lenses;
mod publishing;
mod references;
mod renaming;
mod rewriting;
mod symbols;

pub use actions::actions_in;
pub use inlays::inlays_in;
pub use lenses::lenses_of;
pub use publishing::{Location, Marked, location_of, marks_of, report_on, told_nothing, told_with};
pub use references::{highlights_of, locations_of, uses_of};
pub use renaming::{Renamed, renamed_to};
pub use rewriting::{Rewrite, rewrites_to, rewriting_of};
pub use symbols::{folds_in, symbols_in};
