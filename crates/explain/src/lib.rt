//! What people read of a plan: why a line of a report says what it says.
//!
//! Each thing that is explained is a value first: those of `remedies` and of `plan_findings`. `reports` writes a report with
//! lines for people between its own, made of these values by `faults`, `group_lines`, `plans`, `unchecked`,
//! `certificates` and `benches` (`cells` by bytes). Each of these lines begins with four spaces and has at most 80
//! columns, however long the names are. The exact lines are those of the crates below. `commands` has the command that goes on
//! from a report.
#![tactic(auto)]

mod benches;
mod cells;
mod certificates;
mod commands;
mod faults;
mod group_lines;
mod plans;
mod reports;
mod unchecked;

pub use reports::{explain_answer, explain_check, explain_offers, explain_rehearsal};
