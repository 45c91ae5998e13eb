//! The lexemes of the texts of plans and of briefs, each with its line: words, and characters that stand by themselves.
//!
//! `specs/Lexemes.antt` defines them for all bytes. Which words are keywords is for each language to say.
#![tactic(auto)]

mod fronts;
mod lexemes;
mod lexers;

pub use lexemes::{Letters, Lexeme, Spot, Symbol};
pub use lexers::Lexer;
