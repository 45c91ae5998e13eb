//! The texts that make up a board: those that the heads of briefs name, each once, after all that it names itself.
//!
//! `openers` has what opens files, and says which file each is. `paths` says what a file is called that a text names. `lists` makes the
//! list of the texts of a board.
#![tactic(auto)]

mod lists;
mod openers;
mod paths;

pub use lists::{GivenText, Listed, Unlisted, Why, list_texts};
pub use openers::{FileId, Opener};
pub use paths::folder_of;
