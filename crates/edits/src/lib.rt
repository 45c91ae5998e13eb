//! Edits of the texts that give a plan: what stands in the place of which bytes, and the texts that come of it.
//!
//! `replacing` has edits and edited texts, and which lines are others then. `messages` reads the tokens of a message once more, and
//! says which bytes of its path have a place in it; `changes` has what may be changed in an item, `spelling` how that is written.
//! No clause speaks of them.
#![tactic(auto)]

mod changes;
mod messages;
mod replacing;
mod spelling;

pub use changes::{push_never, push_second_version};
pub use messages::{MessageText, Place};
pub use replacing::{ChangedLine, Edit, EditedItem, Edits, changed_lines, edited_texts, joined};
pub use spelling::{Bits, spelled_bits, spelled_count};
