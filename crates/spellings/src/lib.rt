//! Plans and briefs in other spellings: `print_plan` writes the canonical spelling of a plan, `brief_of` a brief of it, and
//! the runs of `print`, `expand` and `brief` do so over any readers and writers.
//!
//! `print` writes the canonical spelling. `writing` writes the items of a brief, `families` those of messages that it says
//! as one, `items` those that are alike in both. `laws` says that the canonical spelling of a plan is one of its spellings,
//! and that what `writing` writes for a plan means it. `runs` reads, and writes the canonical spelling or the brief.
#![tactic(auto)]

mod families;
mod items;
pub mod laws;
pub mod print;
pub mod runs;
mod writing;

pub use print::print_plan;
pub use runs::{print_found, run_brief, run_expand, run_print};
pub use writing::{brief_of, brief_word};
