//! Who wins arbitration: a value for each pair of a plan, and its lines; and a summary of it.
//!
//! What is said of a pair is the answer of `arbitration`, whose contract says what it means. `known` keeps it for each two
//! senders, `orders` has the value, `totals` counts for each participant, and `lines` has the words. `scores` counts
//! for each participant against each side, a controller or an interrupt, and `summaries` has the words for people.
//! `laws` says that value and lines together are the report for a plan.
#![tactic(auto)]

mod known;
pub mod laws;
mod lines;
mod orders;
mod scores;
mod summaries;
mod totals;

pub use arbitration::{Outcomes, Slots};
pub use lines::order_report;
pub use orders::{Order, order_of};
pub use scores::{Score, Scores, scores_of};
pub use summaries::{Called, order_summary};
pub use totals::Total;
