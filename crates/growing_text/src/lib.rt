//! A text that grows by parts, as reports and hints do. That there was no memory for one of them is told once, at the
//! end.
//! `texts` has the text, `sentences` has words that templates tell, `lines` breaks words into lines for a terminal, and
//! `showing` escapes what that does not show.
#![tactic(auto)]

mod lines;
mod sentences;
mod showing;
mod texts;

pub use lines::{COLUMNS, Lines};
pub use sentences::{Part, Sentence};
pub use showing::{is_hidden, push_shown, push_visible, shown, visible};
pub use texts::Text;
