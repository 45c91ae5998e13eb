//! The texts that an editor has open, the plans that these give, and what is known of each.
//!
//! `documents` has the texts that are open, and `uris` their files; `positions` counts as the Language Server Protocol does. `heads`
//! says which texts begin a plan, `plans` which give it, and `boards` has the files that heads name. `knowledge` keeps what is known of
//! a plan: `checking` finds what is wrong with it, `readings` has the names of its texts as they were read, `families` where a
//! name gets what it stands for, and `lasting` what was unsafe before. `spelling` writes values as JSON.
#![tactic(auto)]

mod boards;
mod checking;
mod documents;
mod families;
mod heads;
mod knowledge;
mod lasting;
mod plans;
mod positions;
mod readings;
mod spelling;
mod uris;

pub use boards::is_second_version;
pub use checking::{Texts, named, names_after_first, texts_of};
pub use documents::{Document, Documents};
pub use families::{definition_in, group_in, numbers_of};
pub use heads::{FoundBoard, found_boards, given_at, heads_of};
pub use knowledge::{Known, Offered};
pub use lasting::Lasting;
pub use plans::{
    Further, Given, Part, Unread, UnreadAt, further_of, given_alone, given_by, is_further,
    stands_for,
};
pub use positions::{Edit, Lines, Position, Range, Units};
pub use readings::{ReadPlan, Reading, Word, names_in, names_of_item};
pub use spelling::json;
pub use uris::{path_of, uri_of};
