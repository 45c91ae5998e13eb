//! What runs over plans find as JSON, one object a line, for programs.
//!
//! `checks`, `certificates`, `benches` and `orders` have the objects of what commands find: each is written field by field.
//! `oddities` has those of what is likely a mistake, and `fields` what several have.
#![tactic(auto)]

mod benches;
mod certificates;
mod checks;
mod fields;
mod oddities;
mod offered;
mod orders;

pub use benches::write_rehearsal;
pub use certificates::write_answer;
pub use checks::{write_check, write_offers};
pub use orders::{write_order, write_scores};
