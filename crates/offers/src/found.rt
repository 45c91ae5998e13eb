// What is offered to mend the groups of a plan's unsafe pairs: edits of its texts, each of which was tried.

ghost use Rattle.std.specs.Prelude.{IfOk, IfSome, IsTrue, OnOk, All};
ghost use Rattle.given_plans.specs.Sources.{bytes_of};
ghost use Rattle.offers.specs.Offered.{AreOffers, IsOffer, KeepsPairs};
ghost use Rattle.plan_core.specs.PlanContents.{plan_contents};
ghost use Rattle.remedies.specs.Numbers.{group_numbers};
ghost use Rattle.verdicts.specs.Faults.{AreFaults, fault_list};

use crate::keeping;
use crate::lists::{Together, together_of};
use crate::mended::{mended_by, pairs_of};
use crate::nevers::{has_interrupt, kept_in};
use crate::paths::{can_have, places_on};
use crate::proposals::{Change, Edited, Proposal, Sought, proposals_for, push_made};
use crate::sides::{BothSides, Given};
use crate::tries::{Outcome, Tries, Unedited, lines_changed};
use causes::Group;
use edits::{ChangedLine, Edits, Place, push_never, push_second_version};
use given_plans::Provenance;
use plan_core::Plan;
use plan_words::PlanWords;
use remedies::Grouped;
use std::alloc::{AllocError, Global};
use verdicts::Faults;

// The addresses that an interrupt may get (UM10204, 3.1.12 reserves the others).
const LOWEST: u8 = 0x08;

const HIGHEST: u8 = 0x77;

// Those that SMBus has for itself: of the host, of the alert response, and the default one of devices.
const OF_SMBUS: [u8; 3] = [0x08, 0x0C, 0x61];

/// An edit that mends a group.
pub struct Offer {
    /// The number of the group.
    pub group: usize,
    /// Its own number in the group, from 1 on.
    pub number: usize,
    pub proposal: Proposal,
    pub outcome: Outcome,
    /// The numbers of all groups that it mends, and how many pairs these have.
    pub groups: Vec<usize>,
    pub pairs: usize,
    /// The lines of the texts that are others then, as they would stand.
    pub lines: Vec<ChangedLine>,
}

// Written out, so that one call lets it go.
impl Drop for Offer {
    fn drop(self) {
        let Self {
            group: _,
            number: _,
            proposal: _,
            outcome: _,
            groups: _,
            pairs: _,
            lines: _,
        } = self;
    }
}

/// What is offered to mend the groups of a plan.
#[derive(Drop)]
pub struct Offers {
    /// In the order of the groups, and of each in the order in which they were tried.
    pub all: Vec<Offer>,
    pub together: Together,
    /// Whether not all could be tried: there are too many.
    pub is_cut: bool,
}

impl Offers {
    /// Those for the group with this number.
    pub fn of(&self, g: usize) -> &[Offer] {
        let start = self.all.partition_point(|offer| offer.group < g);
        let end = self.all.partition_point(|offer| offer.group <= g);
        self.all.get(start..end).unwrap_or(&[])
    }
}

// What is looked at to find them.
#[derive(Clone, Copy)]
struct Search<'s, 'a> {
    words: PlanWords<'a>,
    texts: &'a [Vec<u8>],
    groups: &'s Grouped,
    given: &'s Given<'a>,
    keeping: &'s keeping::Groups,
    free: &'s [u8],
}

/// What is offered to mend these groups of the unsafe pairs of the plan, which has these words and faults, and which these texts
/// give.
///
/// # Errors
///
/// Where an allocation fails.
pub fn offers_of(
    alloc: Global,
    plan: &Plan,
    words: PlanWords<'_>,
    faults: &Faults,
    groups: &Grouped,
    provenance: &Provenance,
) -> Result<Offers, AllocError>
    requires { AreFaults (plan_contents plan.now) (fault_list faults.now) }
    ensures { IfOk result (λ it. AreOffers (bytes_of provenance.now.texts.items) (plan_contents plan.now)
        (fault_list faults.now) (group_numbers groups.now) it) }
{
    let given = Given::new(alloc, words, provenance)?;
    let keeping = keeping::groups_of(alloc, words)?;
    let free = free_addresses(alloc, plan)?;
    let was = Unedited {
        plan,
        faults,
        texts: provenance.texts.as_slice(),
    };
    let search = Search {
        words,
        texts: provenance.texts.as_slice(),
        groups,
        given: &given,
        keeping: &keeping,
        free: free.as_slice(),
    };
    offers_in(alloc, was, groups, search)
}

// The same, with what is looked at to find them.
fn offers_in(
    alloc: Global,
    was: Unedited<'_>,
    groups: &Grouped,
    search: Search<'_, '_>,
) -> Result<Offers, AllocError>
    requires { AreFaults (plan_contents was.plan.now) (fault_list was.faults.now) }
    ensures { IfOk result (λ offers. AreOffers (bytes_of was.entry.texts.now) (plan_contents was.entry.plan.now)
        (fault_list was.entry.faults.now) (group_numbers groups.now) offers) }
{
    let mut tries = Tries::new(was);
    let all = all_offers(alloc, was, groups, search, &mut tries)?;
    tries.renew();
    let together = together_of(alloc, was, groups, all.as_slice(), &mut tries)?;
    Ok(Offers {
        all,
        together,
        is_cut: tries.are_cut(),
    })
}

fn all_offers(
    alloc: Global,
    was: Unedited<'_>,
    groups: &Grouped,
    search: Search<'_, '_>,
    tries: &mut Tries,
) -> Result<Vec<Offer>, AllocError>
    requires { AreFaults (plan_contents was.plan.now) (fault_list was.faults.now) }
    ensures { IfOk result (λ offers. All (IsOffer (bytes_of was.entry.texts.now) (plan_contents was.entry.plan.now)
        (fault_list was.entry.faults.now) (group_numbers groups.now)) offers.items) }
{
    let members = by_groups(alloc, groups)?;
    let mut all = Vec::new(alloc);
    let mut rest = members.as_slice();
    for g in 0..groups.len() {
        if let Some(group) = groups.group(g) {
            let (pairs, later) = parted_at(rest, group.pairs);
            rest = later;
            push_offers(
                alloc,
                was,
                groups,
                search,
                tries,
                &mut all,
                (g, group, pairs),
            )?;
        }
    }
    Ok(all)
}

fn parted_at<T>(all: &[T], first: usize) -> (&[T], &[T]) {
    (
        all.get(..first).unwrap_or(all),
        all.get(first..).unwrap_or(all),
    )
}

// A group with its number, and its pairs: each by that number and its place among the faults.
type Numbered<'m> = (usize, Group, &'m [(usize, usize)]);

// Adds what is offered for a group.
fn push_offers(
    alloc: Global,
    was: Unedited<'_>,
    groups: &Grouped,
    search: Search<'_, '_>,
    tries: &mut Tries,
    all: &mut Vec<Offer>,
    group: Numbered<'_>,
) -> Result<(), AllocError>
    requires faults { AreFaults (plan_contents was.plan.now) (fault_list was.faults.now) }
    requires before { All (IsOffer (bytes_of was.texts.now) (plan_contents was.plan.now)
        (fault_list was.faults.now) (group_numbers groups.now)) all.old.items }
    ensures { OnOk result (All (IsOffer (bytes_of was.entry.texts.now) (plan_contents was.entry.plan.now)
        (fault_list was.entry.faults.now) (group_numbers groups.now)) all.new.items) }
{
    if tries.are_spent() {
        return Ok(());
    }
    let (g, _, _) = group;
    for proposal in search.proposals(alloc, was.faults, group)? {
        if let Some(number) = number_of(all.as_slice(), g, &proposal) {
            push_offer(alloc, was, groups, tries, all, (g, number), proposal)?;
        }
    }
    Ok(())
}

// Adds the offer that a proposal is, where it mends the group.
fn push_offer(
    alloc: Global,
    was: Unedited<'_>,
    groups: &Grouped,
    tries: &mut Tries,
    all: &mut Vec<Offer>,
    numbers: (usize, usize),
    proposal: Proposal,
) -> Result<(), AllocError>
    requires faults { AreFaults (plan_contents was.plan.now) (fault_list was.faults.now) }
    requires before { All (IsOffer (bytes_of was.texts.now) (plan_contents was.plan.now)
        (fault_list was.faults.now) (group_numbers groups.now)) all.old.items }
    ensures { OnOk result (All (IsOffer (bytes_of was.entry.texts.now) (plan_contents was.entry.plan.now)
        (fault_list was.entry.faults.now) (group_numbers groups.now)) all.new.items) }
{
    if let Some(offer) = offer_of(alloc, was, groups, tries, numbers, proposal)? {
        all.push(offer)?;
    }
    Ok(())
}

// The number that a proposal for the last group would have. None where those before it leave no room for it.
fn number_of(all: &[Offer], g: usize, proposal: &Proposal) -> Option<usize> {
    let mut number = 1usize;
    for offer in all {
        if offer.group == g {
            if excludes(&offer.proposal, proposal) {
                return None;
            }
            number = number.saturating_add(1);
        }
    }
    Some(number)
}

// For a side one of each kind is offered, and of counts those of one frame.
fn excludes(found: &Proposal, other: &Proposal) -> bool {
    let is_more = match (found.change, other.change) {
        (Change::Count { frame }, Change::Count { frame: later }) => frame != later,
        (one, two) => one.kind() == two.kind(),
    };
    is_more && found.edited == other.edited
}

fn offer_of(
    alloc: Global,
    was: Unedited<'_>,
    groups: &Grouped,
    tries: &mut Tries,
    numbers: (usize, usize),
    proposal: Proposal,
) -> Result<Option<Offer>, AllocError>
    requires { AreFaults (plan_contents was.plan.now) (fault_list was.faults.now) }
    ensures { IfOk result (λ found. IfSome found (λ offer. IsOffer (bytes_of was.entry.texts.now) (plan_contents was.entry.plan.now)
        (fault_list was.entry.faults.now) (group_numbers groups.now) offer)) }
{
    let (group, number) = numbers;
    let Some(outcome) = tries.outcome(alloc, was, proposal.edits.as_slice())? else {
        return Ok(None);
    };
    let mended = mended_by(alloc, groups, outcome.left.as_slice())?;
    let pairs = (was.plan.pair_count(), outcome.pairs);
    if !may_have(proposal.change, pairs) || !mended.contains(&group) {
        return Ok(None);
    }
    let lines = lines_changed(alloc, was.texts, proposal.edits.as_slice())?;
    Ok(Some(Offer {
        group,
        number,
        proposal,
        outcome,
        pairs: pairs_of(groups, mended.as_slice()),
        groups: mended,
        lines,
    }))
}

// Only items that keep pairs apart may leave some out: before there were so many, and then so many.
fn may_have(change: Change, pairs: (u32, u32)) -> bool
    ensures { IsTrue result → KeepsPairs change pairs.0 pairs.1 }
{
    match change {
        Change::Never => true,
        _ => pairs.0 == pairs.1,
    }
}

// Each unsafe pair by its group and its place among all, group by group.
fn by_groups(alloc: Global, groups: &Grouped) -> Result<Vec<(usize, usize)>, AllocError> {
    let mut all = Vec::with_capacity(alloc, groups.numbers().len())?;
    for (k, g) in groups.numbers().iter().enumerate() {
        all.push((*g, k))?;
    }
    all.sort()?;
    Ok(all)
}

// ---- what is tried

impl Search<'_, '_> {
    // What may be edited to mend a group, in the order in which it is tried.
    fn proposals(
        self,
        alloc: Global,
        faults: &Faults,
        group: Numbered<'_>,
    ) -> Result<Vec<Proposal>, AllocError> {
        let (_, group, pairs) = group;
        let mut found = match self.given.sides(alloc, faults, group, pairs)? {
            Some(sides) => self.edits(alloc, faults, group, &sides)?,
            None => Vec::new(alloc),
        };
        self.push_nevers(alloc, &mut found, faults, pairs)?;
        Ok(found)
    }

    fn edits(
        self,
        alloc: Global,
        faults: &Faults,
        group: Group,
        sides: &BothSides<'_>,
    ) -> Result<Vec<Proposal>, AllocError> {
        let places = places_before(alloc, faults, group)?;
        let sought = Sought {
            sides,
            places: places.as_slice(),
            frame: u32::try_from(group.cause.frame).unwrap_or(0),
            free: self.free,
        };
        proposals_for(alloc, sought)
    }

    // The items that keep these pairs apart, where none of them has an interrupt.
    fn push_nevers(
        self,
        alloc: Global,
        found: &mut Vec<Proposal>,
        faults: &Faults,
        pairs: &[(usize, usize)],
    ) -> Result<(), AllocError> {
        let pairs = pairs_at(alloc, faults, pairs)?;
        for pair in pairs.as_slice() {
            if has_interrupt(self.words.plan(), *pair) {
                return Ok(());
            }
        }
        let kept = kept_in(alloc, self.words, self.keeping, pairs.as_slice())?;
        let mut made = Edits::new(alloc);
        for never in kept.nevers.iter() {
            let sides = (never.first.as_str(), never.second.as_str());
            push_never(alloc, &mut made, self.texts, sides);
        }
        if !kept.nevers.is_empty() && self.words.is_first_version() {
            push_second_version(alloc, &mut made, self.texts);
        }
        push_made(found, made, Change::Never, Edited::Both)
    }
}

// The places before the fault of the example of a group.
fn places_before(alloc: Global, faults: &Faults, group: Group) -> Result<Vec<Place>, AllocError> {
    if faults.len() <= group.example {
        return Ok(Vec::new(alloc));
    }
    let (_, fault) = faults.get(group.example);
    places_on(alloc, fault.wire.as_slice())
}

fn pairs_at(
    alloc: Global,
    faults: &Faults,
    members: &[(usize, usize)],
) -> Result<Vec<u32>, AllocError> {
    let mut pairs = Vec::with_capacity(alloc, members.len())?;
    for (_, k) in members {
        if *k < faults.len() {
            let (pair, _) = faults.get(*k);
            pairs.push(pair)?;
        }
    }
    Ok(pairs)
}

// The addresses that no header of a message can have, and neither an interrupt nor SMBus has, from the lowest on: as many as there
// are interrupts.
fn free_addresses(alloc: Global, plan: &Plan) -> Result<Vec<u8>, AllocError> {
    let interrupts = plan.interrupts() as usize;
    let mut free = Vec::new(alloc);
    for address in LOWEST..=HIGHEST {
        if free.len() < interrupts && is_free(plan, address) {
            free.push(address)?;
        }
    }
    Ok(free)
}

fn is_free(plan: &Plan, address: u8) -> bool {
    if OF_SMBUS.contains(&address) {
        return false;
    }
    for k in 0..plan.interrupts() {
        if plan.interrupt_address(k) == address {
            return false;
        }
    }
    for m in 0..plan.messages() {
        if can_have(plan.message(m), address) {
            return false;
        }
    }
    true
}
