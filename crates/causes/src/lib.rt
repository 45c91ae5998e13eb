//! The unsafe pairs of a plan, in groups of one cause each. Two pairs have one cause where the same kinds of items meet in the
//! same frame of the same address, in the header or in the data, between participants of the same families. Which messages
//! are a family is for the caller to say.
#![tactic(auto)]

mod families;
mod grouping;
mod groups;
mod headers;
mod keys;
mod meetings;
mod orders;
mod sides;

pub use families::Family;
pub use groups::{Group, Groups, groups_of};
pub use meetings::{Cause, Place};
pub use sides::Side;
