//! What is found out about a plan, its certificate and its rehearsal, as values that each form may show.
//!
//! `unchecked` has what a check does not look at, `mistakes` and `breaks` what is wrong with a certificate (`broken`
//! what is sent up to there), `tracks` what starters put along a wire. `whys` says why a pair is unsafe. `ranges`
//! has runs of slots in words, and `details` is how much a form tells of unsafe pairs. What mends a plan is in `offers`.
#![tactic(auto)]

mod breaks;
mod broken;
mod details;
mod mistakes;
mod ranges;
mod tracks;
mod unchecked;
mod whys;

pub use breaks::{Break, Reason};
pub use details::Detail;
pub use mistakes::{Mistake, mistake_of};
pub use ranges::tell_ranges;
pub use tracks::{Track, WireTracks, tracks_of};
pub use unchecked::{is_all_checked, unsent_in};
pub use whys::why_unsafe;
