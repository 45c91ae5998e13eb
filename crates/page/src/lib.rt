//! A plan as a page for a browser: one file, with nothing that it loads from elsewhere.
//!
//! The page has what was found of the plan as JSON, and a script that draws it: the groups of unsafe pairs, a matrix of the
//! pairs, the drawing of each, who wins, what is sent, and a capture on a line of time. The script decides nothing. `pages`
//! joins the parts. `data` has the JSON, with `parties` for who takes part, `nodes` for the messages, `pairs` for the pairs,
//! `ways` for who wins in them, `groups` for the unsafe ones by their causes, and `recording` for a capture, with
//! `wires` for the levels of its lines. `style` has how the page looks. The script stands in `senders`, `matrix`,
//! `drawings`, `group_list`, `levels` (the wire of a transaction), `lanes` (those of a capture) and `times`. Without a
//! script the exact reports are there to be read.
#![tactic(auto)]

mod advice;
mod data;
mod drawings;
mod group_list;
mod groups;
mod lanes;
mod levels;
mod matrix;
mod nodes;
mod pages;
mod pairs;
mod parties;
mod recording;
mod senders;
mod style;
mod times;
mod ways;
mod wires;

pub use pages::{Page, Texts, page_of};
pub use recording::Recording;
