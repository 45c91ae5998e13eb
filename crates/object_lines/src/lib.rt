//! JSON, one object a line: how objects are gathered and written, and what several have.
//!
//! `writing` gathers them, `file_lines` says where participants of a plan stand in briefs.
#![tactic(auto)]

mod file_lines;
mod writing;

pub use file_lines::{At, BothAt, OneAt, all_at, both_at, line_of, one_at};
pub use writing::ObjectLines;
