// Runs over what is offered to mend a plan: they list it, or take offers. The texts with their edits are read and checked as those of
// any plan, so that a status is that of what is written.

ghost use Rattle.std.specs.Prelude.{IfOk, IsSomeAnd};
ghost use Rattle.given_plans.specs.Sources.{GiveThePlan, ReadsTexts, bytes_of};
ghost use Rattle.plan_core.specs.PlanContents.{plan_contents};
ghost use Rattle.plan_runs.specs.Statuses.{GiveJudged, OfGivenPlan};
ghost use Rattle.report.specs.Checks.{Judges};
ghost use Rattle.verdicts.specs.Faults.{AreFaults, fault_list};

use crate::checking::status_in;
use command_words::{Mend, OfferNumber, Taking};
use edits::{Edit, edited_texts, joined};
use explain::explain_offers;
use files::Comparing;
use given_plans::{Halted, Provenance};
use given_runs::{GivenCheck, find_checked};
use hints::{OfferAt, Then, Untaken};
use objects::write_offers;
use offers::{Offer, Offers, Reasons, offers_of};
use plan_words::PlanWords;
use remedies::{grouped_of, kept_apart};
use run_parts::{Input, Output, RunError, Status, Watched, write_lines};
use run_values::{Ended, Extras, Findings, Halt, Mended, Sources, Style};
use std::alloc::{AllocError, Global};
use std::thread::Threads;
use std::time::Clock;
use verdicts::{Checked, Gate};

// ---- offers are listed

/// Lists all that is offered to mend the plan that the readers give. The status is that of its check.
pub fn list_offers<R: Eprint + Clock + AllocGlobal + Threads + Sync, I: Input, O: Output>(
    rt: &R,
    plans: &mut Sources<'_, I>,
    out: &mut O,
    workers: u32,
    extras: Extras,
) -> Result<Ended, Halt>
    ensures status { IfOk result (λ it. OfGivenPlan I.reader (Judges it.status)
        plans.old.readers.items plans.new.readers.items) }
{
    let gate = Comparing::new(rt, extras.watcher);
    let found = found_in(rt, plans, workers, &gate)?;
    let status = status_in(&found);
    write_listed(rt.alloc(), &found, plans, out, extras.style())?;
    Ok(Ended::quietly(status))
}

// A check of the plan that the readers give.
fn found_in<R: AllocGlobal + Threads + Sync, I: Input, G: Gate + Sync>(
    rt: &R,
    plans: &mut Sources<'_, I>,
    workers: u32,
    gate: &G,
) -> Result<GivenCheck, Halt>
    ensures read { IfOk result (λ it. ReadsTexts I.reader plans.old.readers.items
        (bytes_of it.provenance.texts.items) plans.new.readers.items) }
    ensures given { IfOk result (λ it.
        GiveThePlan (bytes_of it.provenance.texts.items) (plan_contents it.checked.plan)) }
    ensures faults { IfOk result (λ it.
        AreFaults (plan_contents it.checked.plan) (fault_list it.checked.faults)) }
{
    match find_checked(rt, rt.alloc(), plans.readers.as_mut_slice(), workers, gate) {
        Ok(found) => Ok(found),
        Err(halted) => Err(plans.halt(halted)),
    }
}

fn write_listed<I: Input, O: Output>(
    alloc: Global,
    found: &GivenCheck,
    plans: &Sources<'_, I>,
    out: &mut O,
    style: Style,
) -> Result<(), RunError>
    requires { AreFaults (plan_contents found.now.checked.plan) (fault_list found.now.checked.faults) }
{
    let GivenCheck {
        checked,
        provenance,
    } = found;
    let words = plans.words(&checked.plan, provenance);
    let reasons = offered_in(alloc, checked, words, provenance)?;
    let reasons = reasons.as_ref();
    match style {
        Style::Objects => {
            let texts = provenance.texts.as_slice();
            write_offers(alloc, checked, words, texts, reasons, out)
        }
        Style::Lines(paint) => explain_offers(alloc, checked, words, reasons, paint, out),
    }
}

// What is offered to mend an unsafe plan. None for a safe one.
fn offered_in(
    alloc: Global,
    checked: &Checked,
    words: PlanWords<'_>,
    provenance: &Provenance,
) -> Result<Option<Reasons>, AllocError>
    requires { AreFaults (plan_contents checked.now.plan) (fault_list checked.now.faults) }
{
    let Checked { plan, faults } = checked;
    if faults.is_safe() {
        return Ok(None);
    }
    let groups = grouped_of(alloc, plan, words, faults)?;
    let offers = offers_of(alloc, plan, words, faults, &groups, provenance)?;
    Ok(Some(Reasons::Unsafe(groups, offers)))
}

// ---- offers are taken

/// Takes offers for the plan that the readers give, and checks what the texts give with their edits: the status is that of this check,
/// of the texts that it has read, which are those that are written. Where they are not written in place, the one that changes goes to the
/// report, or the first one where none does.
///
/// # Errors
///
/// Those of a check, and why the offers are not taken.
pub fn take_offers<R: Eprint + Clock + AllocGlobal + Threads + Sync, I: Input, O: Output>(
    rt: &R,
    plans: &mut Sources<'_, I>,
    out: &mut O,
    mend: Mend<'_>,
    extras: Extras,
) -> Result<Ended, Halt>
    ensures mended { IfOk result (λ it. IsSomeAnd it.mended (λ mended.
        GiveJudged (bytes_of mended.provenance.texts.items) it.status)) }
{
    let alloc = rt.alloc();
    let gate = Comparing::new(rt, extras.watcher);
    let found = found_in(rt, plans, mend.workers, &gate)?;
    let edited = edited_by(alloc, &found, plans, mend.taking)?;
    let before = found.provenance.texts.as_slice();
    let changed = changed_in(alloc, before, edited.as_slice())?;
    let written = if mend.in_place {
        None
    } else {
        Some(one_of(alloc, changed.as_slice())?)
    };
    let found = checked_again(rt, edited.as_slice(), mend.workers, &gate)?;
    if let Some(number) = written {
        write_text(found.provenance.texts.as_slice(), number, out)?;
    }
    Ok(ended_with(found, plans, changed))
}

// The texts of the plan with the edits of the offers that are taken.
fn edited_by<I: Input>(
    alloc: Global,
    found: &GivenCheck,
    plans: &Sources<'_, I>,
    taking: Taking<'_>,
) -> Result<Vec<Vec<u8>>, Halt>
    requires { AreFaults (plan_contents found.now.checked.plan) (fault_list found.now.checked.faults) }
{
    let GivenCheck {
        checked,
        provenance,
    } = found;
    let words = plans.words(&checked.plan, provenance);
    let texts = provenance.texts.as_slice();
    match (offered_in(alloc, checked, words, provenance)?, taking) {
        (Some(Reasons::Unsafe(groups, offers)), Taking::These(numbers)) => {
            let edits = joined_of(alloc, &offers, groups.len(), numbers)?;
            Ok(edited_texts(alloc, texts, edits.as_slice())?)
        }
        (Some(Reasons::Unsafe(_, offers)), Taking::All) => {
            Ok(edited_texts(alloc, texts, offers.together.edits.as_slice())?)
        }
        (_, Taking::These([first, ..])) => Err(Halt::Untaken(Untaken::Safe(at(*first)))),
        _ => Ok(edited_texts(alloc, texts, &[])?),
    }
}

// The edits of the offers with these numbers, of so many groups.
fn joined_of(
    alloc: Global,
    offers: &Offers,
    groups: usize,
    numbers: &[OfferNumber],
) -> Result<Vec<Edit>, Halt> {
    let mut edits = Vec::new(alloc);
    for (k, number) in numbers.iter().enumerate() {
        let offer = offer_at(offers, groups, *number)?;
        match joined(alloc, edits.as_slice(), offer.proposal.edits.as_slice())? {
            Some(both) => edits = both,
            None => {
                let before = numbers.get(..k).unwrap_or(&[]);
                return Err(Halt::Untaken(overlap_of(alloc, offers, before, offer)?));
            }
        }
    }
    Ok(edits)
}

fn offer_at(offers: &Offers, groups: usize, number: OfferNumber) -> Result<&Offer, Untaken> {
    let group = number.group as usize;
    if groups <= group {
        return Err(Untaken::NoGroup(at(number), groups));
    }
    let all = offers.of(group);
    for offer in all {
        if offer.number == number.number as usize {
            return Ok(offer);
        }
    }
    Err(Untaken::NoOffer(at(number), all.len()))
}

fn at(number: OfferNumber) -> OfferAt {
    OfferAt {
        group: number.group,
        number: number.number,
    }
}

// An offer changes words that one of these before it changes otherwise.
fn overlap_of(
    alloc: Global,
    offers: &Offers,
    before: &[OfferNumber],
    offer: &Offer,
) -> Result<Untaken, AllocError> {
    let edits = offer.proposal.edits.as_slice();
    for number in before {
        for other in offers.of(number.group as usize) {
            if other.number == number.number as usize
                && joined(alloc, other.proposal.edits.as_slice(), edits)?.is_none()
            {
                return Ok(Untaken::Overlap(at(*number), number_of(offer)));
            }
        }
    }
    Ok(Untaken::Overlap(number_of(offer), number_of(offer)))
}

fn number_of(offer: &Offer) -> OfferAt {
    OfferAt {
        group: u32::try_from(offer.group).unwrap_or(u32::MAX),
        number: u32::try_from(offer.number).unwrap_or(u32::MAX),
    }
}

// The numbers of the texts that are others than they were.
fn changed_in(
    alloc: Global,
    before: &[Vec<u8>],
    after: &[Vec<u8>],
) -> Result<Vec<u32>, AllocError> {
    let mut changed = Vec::new(alloc);
    let mut file = 0u32;
    for (old, new) in before.iter().zip(after.iter()) {
        if old.as_slice() != new.as_slice() {
            changed.push(file)?;
        }
        file = file.saturating_add(1);
    }
    Ok(changed)
}

// The text that is written: the one that changes, or the first one where none does.
fn one_of(alloc: Global, changed: &[u32]) -> Result<u32, Halt> {
    match changed {
        [] => Ok(0),
        [one] => Ok(*one),
        _ => {
            let mut several = Vec::with_capacity(alloc, changed.len())?;
            several.extend_from_slice(changed)?;
            Err(Halt::Untaken(Untaken::Several(several)))
        }
    }
}

// A check of what the edited texts give.
fn checked_again<R: AllocGlobal + Threads + Sync, G: Gate + Sync>(
    rt: &R,
    texts: &[Vec<u8>],
    workers: u32,
    gate: &G,
) -> Result<GivenCheck, Halt>
    ensures given { IfOk result (λ it.
        GiveThePlan (bytes_of it.provenance.texts.items) (plan_contents it.checked.plan)) }
    ensures faults { IfOk result (λ it.
        AreFaults (plan_contents it.checked.plan) (fault_list it.checked.faults)) }
{
    let mut readers = readers_of(rt.alloc(), texts)?;
    match find_checked(rt, rt.alloc(), readers.as_mut_slice(), workers, gate) {
        Ok(found) => Ok(found),
        Err(halted) => Err(unread(halted)),
    }
}

fn readers_of(alloc: Global, texts: &[Vec<u8>]) -> Result<Vec<Watched<&[u8]>>, AllocError> {
    let mut readers = Vec::with_capacity(alloc, texts.len())?;
    for text in texts {
        readers.push(Watched::new(text.as_slice()))?;
    }
    Ok(readers)
}

// The edited texts give no plan.
fn unread(halted: Halted) -> Halt {
    let Halted { error, text } = halted;
    match (error, text) {
        (RunError::Plan(error), Some(refused)) => {
            Halt::Untaken(Untaken::NoPlan(error, refused.file()))
        }
        _ => Halt::Run(error),
    }
}

// Writes the text with this number.
fn write_text<O: Output>(texts: &[Vec<u8>], number: u32, out: &mut O) -> Result<Status, RunError> {
    let number = number as usize;
    if texts.len() <= number {
        return Err(RunError::Read);
    }
    write_lines(out, texts[number].as_slice(), Status::Good)
}

fn ended_with<I: Input>(found: GivenCheck, plans: &Sources<'_, I>, changed: Vec<u32>) -> Ended
    requires given { GiveThePlan (bytes_of found.provenance.texts.items) (plan_contents found.checked.plan) }
    requires faults { AreFaults (plan_contents found.checked.plan) (fault_list found.checked.faults) }
    ensures { IsSomeAnd result.mended (λ mended. GiveJudged (bytes_of mended.provenance.texts.items) result.status) }
{
    let status = status_in(&found);
    let then = then_of(&found, plans);
    let GivenCheck { provenance, .. } = found;
    Ended {
        status,
        findings: Findings::Nothing,
        wave: None,
        mended: Some(Mended {
            provenance,
            changed,
            then,
        }),
    }
}

// What a check says.
fn then_of<I: Input>(found: &GivenCheck, plans: &Sources<'_, I>) -> Then {
    let GivenCheck {
        checked,
        provenance,
    } = found;
    Then {
        pairs: checked.plan.pair_count(),
        unsafe_pairs: checked.faults.len(),
        kept_apart: kept_apart(plans.words(&checked.plan, provenance)),
    }
}
