//! The runs over what gives a plan: one text, which may be a plan text or a brief, or several briefs. Each reads, finds a value,
//! and writes it in its exact form; it answers the value too, for whoever has more to say.
//!
//! What is due for a plan does not depend on how it was given, so that the run of a command is that of its plan.
#![tactic(auto)]

mod capturing;
mod certifying;
mod checking;
mod ordering;
mod rehearsing;
mod rewriting;
mod texts;
mod verifying_given;

pub use capturing::{GivenCapture, GivenLive, capture_given, live_given};
pub use certifying::certify_given;
pub use checking::{GivenCheck, check_given, find_checked};
pub use ordering::{GivenOrder, find_ordered, order_given};
pub use rehearsing::{
    GivenOutcome, Unrehearsed, bench_given, find_rehearsed, find_self_rehearsed, self_bench_given,
};
pub use rewriting::{expand_given, print_given};
pub use texts::{Formatted, Unabbreviated, brief_given, find_formatted};
pub use verifying_given::{GivenAnswer, find_answered, verify_given};
