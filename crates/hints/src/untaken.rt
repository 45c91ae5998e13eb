// After offers to mend a plan that were taken, or that cannot be.

use crate::lines::Lines;
use crate::paths::push_path;
use crate::values::Hints;
use growing_text::Text;
use plan_text::PlanError;
use plan_words::BriefFiles;
use std::alloc::{AllocError, Global};

/// The number of an offer: that of its group, and its own there.
#[derive(Clone, Copy)]
pub struct OfferAt {
    pub group: u32,
    pub number: u32,
}

/// Why offers are not taken.
#[derive(Drop)]
pub enum Untaken {
    /// The plan is safe, so this one is not there.
    Safe(OfferAt),
    /// The plan has so many groups, and not that of this one.
    NoGroup(OfferAt, usize),
    /// Its group has so many offers, and not this one.
    NoOffer(OfferAt, usize),
    /// These two change the same words.
    Overlap(OfferAt, OfferAt),
    /// The edited texts give no plan: this one of them is refused so.
    NoPlan(PlanError, u32),
    /// These texts change, and they are not to be written in place.
    Several(Vec<u32>),
}

impl Untaken {
    /// What the refusal is called.
    pub fn word(&self) -> &'static str {
        match self {
            Untaken::Safe(_) | Untaken::NoGroup(..) | Untaken::NoOffer(..) => "offer",
            Untaken::Overlap(..) => "overlap",
            Untaken::NoPlan(..) => "edited",
            Untaken::Several(_) => "files",
        }
    }

    /// The numbers of the offers of which it speaks, as the command line has them. Nothing where it is of all.
    ///
    /// # Errors
    ///
    /// Where an allocation fails.
    pub fn offers(&self, alloc: Global) -> Result<String, AllocError> {
        let mut text = Text::new(alloc);
        match self {
            Untaken::Safe(offer) | Untaken::NoGroup(offer, _) | Untaken::NoOffer(offer, _) => {
                push_offer(&mut text, *offer);
            }
            Untaken::Overlap(one, other) => {
                push_offer(&mut text, *one);
                text.push(",");
                push_offer(&mut text, *other);
            }
            Untaken::NoPlan(..) | Untaken::Several(_) => {}
        }
        text.finish()
    }
}

fn push_offer(text: &mut Text, offer: OfferAt) {
    text.push_number(u64::from(offer.group));
    text.push(".");
    text.push_number(u64::from(offer.number));
}

/// After offers of the plan that these files give, which are not taken.
///
/// # Errors
///
/// Where an allocation fails.
pub fn on_untaken(
    alloc: Global,
    files: BriefFiles<'_>,
    untaken: &Untaken,
) -> Result<Hints, AllocError> {
    let mut lines = Lines::new(alloc);
    match untaken {
        Untaken::Safe(OfferAt { group, number }) => {
            lines.say(format_args!("there is no offer {group}.{number}: the plan is safe"));
        }
        Untaken::NoGroup(OfferAt { group, number }, groups) => {
            let ending = ending_of(*groups);
            lines.say(format_args!(
                "there is no offer {group}.{number}: the plan has {groups} group{ending}"
            ));
        }
        Untaken::NoOffer(OfferAt { group, number }, offers) => {
            let ending = ending_of(*offers);
            lines.say(format_args!(
                "there is no offer {group}.{number}: group {group} has {offers} offer{ending}"
            ));
        }
        Untaken::Overlap(one, other) => {
            let (group, number) = (one.group, one.number);
            lines.part(format_args!("offers {group}.{number}"));
            let (group, number) = (other.group, other.number);
            lines.say(format_args!(
                " and {group}.{number} change the same words: take one of them"
            ));
        }
        Untaken::NoPlan(error, file) => {
            lines.part(format_args!("the edited texts give no plan: {error} of "));
            push_file(alloc, &mut lines, files, *file);
            lines.end();
        }
        Untaken::Several(changed) => {
            lines.part("these files change: ");
            push_files(alloc, &mut lines, files, changed.as_slice());
            lines.say("; '--in-place' writes them");
        }
    }
    lines.finish()
}

fn ending_of(number: usize) -> &'static str {
    if number == 1 { "" } else { "s" }
}

fn push_files(alloc: Global, lines: &mut Lines, files: BriefFiles<'_>, numbers: &[u32]) {
    for (k, file) in numbers.iter().enumerate() {
        if k != 0 {
            lines.part(", ");
        }
        push_file(alloc, lines, files, *file);
    }
}

fn push_file(alloc: Global, lines: &mut Lines, files: BriefFiles<'_>, number: u32) {
    push_path(alloc, lines, files.of(number).unwrap_or(""));
}

/// What a check says of a plan that was mended.
#[derive(Clone, Copy)]
pub struct Then {
    pub pairs: u32,
    pub unsafe_pairs: usize,
    /// How many pairs `never` leaves out.
    pub kept_apart: u64,
}

/// After offers of the plan that these files give, which were taken: which texts change, and what a check says then.
///
/// # Errors
///
/// Where an allocation fails.
pub fn on_mended(
    alloc: Global,
    files: BriefFiles<'_>,
    changed: &[u32],
    then: Then,
) -> Result<Hints, AllocError> {
    let mut lines = Lines::new(alloc);
    if changed.is_empty() {
        lines.say("nothing changes");
    } else {
        lines.part("changed: ");
        push_files(alloc, &mut lines, files, changed);
        lines.end();
    }
    let Then {
        pairs,
        unsafe_pairs,
        kept_apart,
    } = then;
    lines.part("check then says '");
    if unsafe_pairs == 0 {
        lines.part(format_args!("safe: {pairs} pairs'"));
    } else {
        lines.part(format_args!("unsafe: {unsafe_pairs} of {pairs} pairs'"));
    }
    match kept_apart {
        0 => {}
        1 => lines.part(" (1 pair is not checked)"),
        _ => lines.part(format_args!(" ({kept_apart} pairs are not checked)")),
    }
    lines.end();
    lines.finish()
}
