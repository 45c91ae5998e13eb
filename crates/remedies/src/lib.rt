//! Why a plan is safe or not, as values: the exact verdicts are those of the crates below.
//!
//! `groups` has which unsafe pairs have one cause (`families` which messages count as one there, `ranks` their order), `safety` how
//! the pairs of a safe plan are kept apart, and `apart` what its `never` items leave out.
#![tactic(auto)]

mod apart;
mod families;
mod groups;
mod ranks;
mod safety;

pub use apart::{both_of, controller_of, is_never, kept_apart, pairs_of, sendings};
pub use families::{name_of, stem_of};
pub use groups::{Alike, Grouped, count_groups, grouped_of};
pub use safety::{Decided, Safety, safety_of};
