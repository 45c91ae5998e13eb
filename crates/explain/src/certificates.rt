// Lines below the answer to a certificate.

use crate::group_lines::{tell_alone, tell_two};
use bus_rows::{BYTES, Side, row_of, say, tell_places, tell_rows};
use growing_text::{Lines, Part};
use plan_findings::{Break, Mistake, Reason};
use plan_words::PlanWords;
use std::alloc::{AllocError, Global};

const COUNTS: &str = "the plan has {} pairs, and the certificate has {} lines of proofs";

const SAYS: &str = "its second line says that it has {}";

const NOT_SO: &str = "what the certificate says is not so";

const AFTER_A_CHANGE: &str = "a plan that was changed wants a new certificate: twire certify PLAN";

const AFTER_A_FAULT: &str =
    "a certificate names one pair; all, in groups: twire check --explain PLAN";

const AFTER_A_CUT: &str = "so it is no whole certificate: twire certify PLAN writes one";

/// What is said below the line of an answer: of a fault that the certificate names, the pair that has it; of a certificate that
/// is wrong, which pair it is and where its proof breaks off, or how many proofs and pairs there are; and what to do.
pub(crate) fn below_mistake(
    alloc: Global,
    words: PlanWords<'_>,
    mistake: &Mistake,
) -> Result<String, AllocError> {
    let mut lines = Lines::new(alloc);
    match mistake {
        Mistake::Unsafe {
            pair,
            participants,
            fault,
        } => tell_alone(alloc, &mut lines, words, (*pair, *participants), fault)?,
        Mistake::Pair {
            participants,
            found,
            sides,
            ..
        } => {
            if let Some(sides) = sides {
                tell_two_rows(alloc, &mut lines, words, *participants, sides)?;
            }
            if let Some(found) = found {
                tell_break(&mut lines, *found);
            }
            tell_places(alloc, &mut lines, words, *participants);
            tell_two(alloc, &mut lines, words, *participants, NOT_SO)?;
        }
        Mistake::Count {
            pairs,
            says,
            proofs,
        } => {
            let counts = [Part::Number(u64::from(*pairs)), Part::Number(*proofs)];
            say(&mut lines, COUNTS, &counts);
            if let Some(said) = other_count(*says, *proofs) {
                say(&mut lines, SAYS, &[Part::Number(u64::from(said))]);
            }
        }
        Mistake::Text => {}
    }
    say(&mut lines, advice_on(mistake), &[]);
    lines.finish()
}

fn advice_on(mistake: &Mistake) -> &'static str {
    match mistake {
        Mistake::Unsafe { .. } => AFTER_A_FAULT,
        Mistake::Count { says, proofs, .. } if other_count(*says, *proofs).is_some() => AFTER_A_CUT,
        _ => AFTER_A_CHANGE,
    }
}

// How many proofs a certificate says that it has, where it has another number of them.
fn other_count(says: Option<u32>, proofs: u64) -> Option<u32> {
    match says {
        Some(said) if u64::from(said) != proofs => Some(said),
        _ => None,
    }
}

// What both send up to where their proof breaks off.
fn tell_two_rows(
    alloc: Global,
    lines: &mut Lines,
    words: PlanWords<'_>,
    both: (u32, u32),
    sides: &(Side, Side),
) -> Result<(), AllocError> {
    let first = words.label(alloc, both.0)?;
    let second = words.label(alloc, both.1)?;
    tell_sides(lines, (first.as_str(), second.as_str()), &sides.0, &sides.1);
    Ok(())
}

fn tell_sides(lines: &mut Lines, labels: (&str, &str), first: &Side, second: &Side) {
    let rows = [
        row_of(labels.0, &first.bytes, first.next),
        row_of(labels.1, &second.bytes, second.next),
    ];
    tell_rows(lines, &rows, BYTES);
}

fn tell_break(lines: &mut Lines, found: Break) {
    let parts = [
        Part::Number(u64::from(found.slot)),
        Part::Number(u64::from(found.word)),
        Part::Words(words_of(found.reason)),
    ];
    say(lines, "slot {}, word {} of its proof: {}", &parts);
}

fn words_of(reason: Reason) -> &'static str {
    match reason {
        Reason::NoSplit => "no bit of this number is known in both and different there",
        Reason::NotBothWrite => "the two do not both write a byte there",
        Reason::NotBothRead => "the two do not both read there",
        Reason::NotBothRestart => "the two do not both send a repeated START there",
        Reason::NotBothStop => "the two do not both send a STOP there",
        Reason::ReadsMayMeet => "both may read the same number of bytes",
        Reason::ReadsNeverMeet => "the two never read the same number of bytes",
        Reason::UnknownWord => "a proof has no such word there",
    }
}
