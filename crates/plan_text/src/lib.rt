//! The text of a plan: `read_plan` reads it.
//!
//! A text is cut into tokens, one at a time, each with its line: the lexemes of `lexer`, with keywords told from other
//! words (`tokens`, `symbols`). Its first two say its version (`versions`). What a single word says is in `words`, the
//! parts of items that are one token in `sources`. `messages` has a function for each rule of the grammar of a message,
//! `items` one for each kind of item. `specs/Reader.antt` defines what a text is read as, and each function that reads
//! is proved equal to its rule there. `laws` says that this is what the grammar spells, and of every text that it has one
//! reading. For people `places` has where a text is refused, and `origins` keeps the names of what was read.
#![tactic(auto)]

pub mod briefs;
pub mod errors;
mod items;
pub mod laws;
mod messages;
pub mod places;
mod sources;
mod symbols;
mod tokens;
mod versions;
pub mod words;

pub use briefs::NoBrief;
pub use errors::PlanError;
pub use items::{read_plan, read_plan_at};
pub use places::{Expected, Language, Place, Refused};
pub use versions::is_plan;
