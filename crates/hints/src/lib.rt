//! What is said to people after a refusal, or after a report that tells of nothing: where the cause stands, and what would
//! stand there instead.
//!
//! Nothing here decides anything. A refusal is the caller's, and the reader knows its place. After that of a plan or
//! of a brief `texts` shows the place, `expected` says what could stand there, `words` why a word cannot, `numbers`
//! the same of numbers, `choices` of choices, `names` where a name stands already or which are nearest, and
//! `wording` what the other refusals mean. `certs` shows the place in a certificate, and `starters` looks for labels
//! in the plan. `safety` says what a safe plan leaves out, `summaries` how many unsafe pairs are seen in groups,
//! `odd` what is likely a mistake in briefs, `plans` why a plan has no brief, `untaken` why offers are not taken, and
//! `devices` which file failed. What
//! is said of dumps is a crate of its own, `dump_hints`, which puts its hints together by the parts below.
//!
//! `values` has the hints, and the edits that mend what they speak of. It writes the hints as lines: it puts the word `hint:`
//! before each, and breaks sentences for 80 columns. `lines` puts hints together from parts, `marking` shows a place in its
//! line, and `paths` writes names of files as a shell takes them. `kinds` tells by its first bytes what a file is that stands in the place of another,
//! and `likeness` which names are nearest to one that is not there.
#![tactic(auto)]

mod certs;
mod choices;
mod devices;
mod expected;
mod kinds;
mod likeness;
mod lines;
mod marking;
mod names;
mod numbers;
mod odd;
mod paths;
mod plans;
mod safety;
mod starters;
mod summaries;
mod texts;
mod untaken;
mod values;
mod wording;
mod words;

pub use certs::on_certificate;
pub use devices::{
    Named, NoWaves, on_closed_input, on_fault, on_memory, on_named_file, on_no_answers,
    on_no_timescale, on_no_waves, on_opening, on_reading, on_workers, on_writing,
};
pub use kinds::{Kind, LOOKED_AT, is_binary, kind_of, push_kind};
pub use likeness::Nearest;
pub use lines::Lines;
pub use marking::{first_line, push_marked, push_name, push_quoted};
pub use names::{Stand, first_stand};
pub use odd::{made_byte, on_oddity};
pub use paths::file_word;
pub use plans::on_no_brief;
pub use safety::{Found, on_checked, on_safe};
pub use starters::on_starters;
pub use texts::{
    Cause, Earlier, RefusedIn, SemicolonAt, cause_of, missing_semicolon_at, on_further_text,
    on_text,
};
pub use untaken::{OfferAt, Then, Untaken, on_mended, on_untaken};
pub use values::{Fix, Hint, Hints};
