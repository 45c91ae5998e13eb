//! The tokens of a brief, and what can be said of a text by them alone: whether it begins as a brief, and which names it has.
//!
//! A text is cut into tokens, one at a time, each with its line (`tokens`): the lexemes of `lexer`, with keywords told from
//! other words (`symbols`). `heads` reads the head: its first two, and the files that it names. `names` has the words that no name may be.
#![tactic(auto)]

mod heads;
mod names;
mod symbols;
mod tokens;

pub use heads::{after_head, begin};
pub use names::{is_board_word, is_brief_word};
pub use symbols::{Keyword, Sign, Symbol, Token};
pub use tokens::{FileNamed, Tokens, record};
