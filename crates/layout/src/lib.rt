//! The layout of a plan text or of a brief: its lines, its blanks and its columns. What the text says is not looked at.
//!
//! `heads` tells the language of a text, `strangers` what belongs to no token of it. `lines` has the text as lines of tokens and
//! comments, `columns` what stands in one column, `writing` writes all of it, and `pages` takes what is written. `words`
//! compares two texts, so that what `layouts` gives has the words of the text that it was given.
#![tactic(auto)]

mod columns;
mod heads;
mod layouts;
mod lines;
mod pages;
mod strangers;
mod words;
mod writing;

pub use heads::Unread;
pub use layouts::formatted;
