//! What is wrong in the texts that give a plan, as values with places: for compilers' messages, and for editors.
//!
//! `refusals` has that of a text which is refused, `meetings` those of unsafe pairs, `lints` those of what is likely a mistake,
//! `mends` what mends that, `unchecked` those of what a strict check fails for; `items` knows where items and names stand. `gcc` writes them as compilers do. Nothing here decides anything.
#![tactic(auto)]

mod checks;
mod gcc;
mod items;
mod lints;
mod meetings;
mod mends;
mod refusals;
mod unchecked;
mod values;

pub use checks::{Wanted, diagnose_check};
pub use gcc::Messages;
pub use refusals::diagnose_refusal;
pub use values::{About, Diagnostic, Edit, Fix, Related, Severity, Span, reason_of};
