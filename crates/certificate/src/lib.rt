//! Certificates: proofs that pairs of participants never clash, and faults that show where one does.
//!
//! `values` has what a certificate says, `laws` what a proof is worth, and that each text has one reading. `read_cert`
//! reads the text of a certificate and `print_cert` writes it; `read_head` and `ProofLines` read one proof at a time, from
//! text that may come in pieces of whole lines (`Standing`), and `print_line` writes one.
//! `places` has where a text is refused, and what could stand there.
//! `sources` has what is left of a text, byte by byte, `words` and `proofs` a function for each rule of the grammar.
#![tactic(auto)]

pub mod errors;
pub mod laws;
pub mod lines;
pub mod places;
pub mod print;
mod proofs;
pub mod read;
mod sources;
pub mod values;
mod words;

pub use errors::{CertError, CertFault};
pub use lines::{ProofLines, Standing};
pub use places::{Expected, Last, Next, Place, Refusal, refusal_of};
pub use print::{print_cert, print_line, push_wire};
pub use read::{Head, read_cert, read_head};
pub use values::{Cert, CertText, Fault};
