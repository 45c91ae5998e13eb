//! What is offered to mend an unsafe plan: edits of the texts that give it, each of which was tried.
//!
//! `found` has which edits mend a group, and `lists` which mend most together; `mended` says which groups an edit mends.
//! `proposals` says what may be edited on the `sides` of a group (`paths` what these send), `nevers` which `never` items keep its
//! pairs apart (`keeping` those by labels of a brief), and `tries` what comes of an edit. `advice` has the words that several
//! forms share (`gone` those for what is no longer sent), and `reasons` what explains a verdict.
#![tactic(auto)]

mod advice;
mod found;
mod gone;
mod keeping;
mod lists;
mod mended;
mod nevers;
mod paths;
mod proposals;
mod reasons;
mod sides;
mod tries;

pub use advice::{Advice, Shown, advice_for_all, advice_for_group};
pub use found::{Offer, Offers, offers_of};
pub use lists::Together;
pub use proposals::{Change, Edited, Proposal};
pub use reasons::{Reasons, reasons_of};
pub use tries::Outcome;
