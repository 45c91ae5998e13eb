//! What is said of a place of a text, as Markdown.
//!
//! `hovers` says what stands there, a name or another token. Of names, `message_hovers` has what is said of messages, and
//! `unsafe_hovers` where an unsafe pair of one meets; `side_hovers` is for controllers and interrupts, `never_hovers` for what a
//! `never` leaves out. `token_hovers` is for what is no name: `deeds` says what such tokens are for, `literal_hovers` what is said of
//! addresses and bytes, `check_hovers` of a `pec` and a `sum`. `hover_counts` says which participants are meant, `hover_words` has words
//! for all of them; `frame_rows` has the frames of a message in bytes, and `winners` who wins.
#![tactic(auto)]

mod check_hovers;
mod deeds;
mod frame_rows;
mod hover_counts;
mod hover_words;
mod hovers;
mod literal_hovers;
mod message_hovers;
mod never_hovers;
mod side_hovers;
mod token_hovers;
mod unsafe_hovers;
mod winners;

pub use hovers::hover_of;
