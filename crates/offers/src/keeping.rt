// The `never` items of a brief that keep unsafe pairs apart: by labels of families, and of single messages.

use crate::nevers::{Never, has_interrupt, is_whole};
use plan_core::Plan;
use plan_core::limits::MOST_CONTROLLERS;
use plan_words::PlanWords;
use remedies::{both_of, controller_of, is_never, sendings};
use std::alloc::{AllocError, Global};

// How many items are said at most.
const ITEMS: usize = 8;

// How many pairs of two groups have an item each at most, where one for more of their messages would leave more unchecked.
const FEW: usize = 4;

// How many characters a label has at most.
const LABEL: usize = 32;

/// The `never` items that keep pairs apart, and how many pairs they leave unchecked.
#[derive(Drop)]
pub struct Kept {
    pub nevers: Vec<Never>,
    pub unchecked: u64,
}

impl Kept {
    /// The same, or no item where these leave nothing of the plan to check.
    pub fn unless_all(self, alloc: Global, plan: &Plan) -> Kept {
        if self.unchecked < u64::from(plan.pair_count()) {
            return self;
        }
        Kept {
            nevers: Vec::new(alloc),
            unchecked: 0,
        }
    }
}

/// Items that keep apart these unsafe pairs of the plan, as far as they are of two controllers, where briefs have words for them and
/// they are few. The messages of a family that a controller lists are one group, and each other one is a group of its own. Two groups
/// that have an unsafe pair have an item, or some, in the order of their first unsafe pairs.
///
/// # Errors
///
/// Where an allocation fails.
pub fn kept_by(
    alloc: Global,
    words: PlanWords<'_>,
    groups: &Groups,
    unsafe_pairs: &[u32],
) -> Result<Option<Kept>, AllocError> {
    if !words.has_briefs() {
        return Ok(None);
    }
    let clashes = clashes_of(alloc, words, groups, unsafe_pairs)?;
    if ITEMS < clashes.len() {
        return Ok(None);
    }
    let fine = fine_items(alloc, words, groups, unsafe_pairs, clashes.as_slice())?;
    match said(alloc, words, groups, fine.as_slice())? {
        Some(kept) => Ok(Some(kept)),
        None => said(alloc, words, groups, clashes.as_slice()),
    }
}

// ---- groups

/// The groups of a plan's participants.
#[derive(Drop)]
pub struct Groups {
    // for each participant the first one of its group
    firsts: Vec<u32>,
}

impl Groups {
    // The group of a participant, by its first one.
    fn of(&self, p: u32) -> u32 {
        self.firsts.get(p as usize).copied().unwrap_or(p)
    }

    // How many participants a side stands for.
    fn size(&self, side: Side) -> usize {
        match side {
            Side::Message(_) => 1,
            Side::Group(group) => self.firsts.iter().filter(|first| **first == group).count(),
        }
    }

    // Whether a side stands for this participant.
    fn has(&self, side: Side, p: u32) -> bool {
        match side {
            Side::Message(message) => message == p,
            Side::Group(group) => self.of(p) == group,
        }
    }
}

/// The groups of the plan's participants, in these words of it.
pub fn groups_of(alloc: Global, words: PlanWords<'_>) -> Result<Groups, AllocError> {
    let participants = words.plan().participants();
    let mut families = Vec::with_capacity(alloc, participants as usize)?;
    let mut firsts = Vec::with_capacity(alloc, participants as usize)?;
    for p in 0..participants {
        let family = family_of(words, p);
        firsts.push(first_of(words, families.as_slice(), p, family))?;
        families.push(family)?;
    }
    Ok(Groups { firsts })
}

// The family whose message a participant sends.
fn family_of(words: PlanWords<'_>, p: u32) -> Option<usize> {
    words.family_of(words.message_of(p)?)
}

// The first participant of the group to which this one belongs, after others of these families.
fn first_of(words: PlanWords<'_>, before: &[Option<usize>], p: u32, family: Option<usize>) -> u32 {
    if family.is_none() {
        return p;
    }
    let mut first = 0u32;
    for other in before {
        if *other == family && are_of_one(words, first, p) {
            return first;
        }
        first = first.saturating_add(1);
    }
    p
}

fn are_of_one(words: PlanWords<'_>, first: u32, second: u32) -> bool {
    match (
        controller_of(words.plan(), first),
        controller_of(words.plan(), second),
    ) {
        (Some(c), Some(d)) => words.is_one(c, d),
        _ => false,
    }
}

// ---- items

// One side of an item: a message of a controller, or a group, by its first participant.
#[derive(Clone, Copy)]
enum Side {
    Message(u32),
    Group(u32),
}

#[derive(Clone, Copy)]
struct Apart {
    first: Side,
    second: Side,
}

// Each two groups that have an unsafe pair, as an item. It stops where these are too many.
fn clashes_of(
    alloc: Global,
    words: PlanWords<'_>,
    groups: &Groups,
    unsafe_pairs: &[u32],
) -> Result<Vec<Apart>, AllocError> {
    let mut clashes: Vec<Apart> = Vec::new(alloc);
    for pair in unsafe_pairs {
        if has_interrupt(words.plan(), *pair) || ITEMS < clashes.len() {
            continue;
        }
        let both = both_of(words.plan(), *pair);
        if !clashes.iter().any(|clash| is_between(groups, *clash, both)) {
            clashes.push(Apart {
                first: Side::Group(groups.of(both.0)),
                second: Side::Group(groups.of(both.1)),
            })?;
        }
    }
    Ok(clashes)
}

// Whether an item keeps these two apart. The first participant of a pair is of an earlier controller than the second, and so
// is the first side of an item.
fn is_between(groups: &Groups, apart: Apart, both: (u32, u32)) -> bool {
    groups.has(apart.first, both.0) && groups.has(apart.second, both.1)
}

// The items for these groups, with single messages where few of a group clash, as far as all together are not too many.
fn fine_items(
    alloc: Global,
    words: PlanWords<'_>,
    groups: &Groups,
    unsafe_pairs: &[u32],
    clashes: &[Apart],
) -> Result<Vec<Apart>, AllocError> {
    let mut items = Vec::new(alloc);
    let mut spare = ITEMS.saturating_sub(clashes.len());
    for clash in clashes {
        let pairs = pairs_between(alloc, words, groups, unsafe_pairs, *clash)?;
        let fine = items_for(alloc, words, groups, *clash, pairs.as_slice())?;
        let more = fine.len().saturating_sub(1);
        if more <= spare {
            spare = spare.saturating_sub(more);
            push_all(&mut items, fine.as_slice())?;
        } else {
            items.push(*clash)?;
        }
    }
    Ok(items)
}

fn push_all(items: &mut Vec<Apart>, more: &[Apart]) -> Result<(), AllocError> {
    for item in more {
        items.push(*item)?;
    }
    Ok(())
}

// The unsafe pairs that an item keeps apart.
fn pairs_between(
    alloc: Global,
    words: PlanWords<'_>,
    groups: &Groups,
    unsafe_pairs: &[u32],
    apart: Apart,
) -> Result<Vec<(u32, u32)>, AllocError> {
    let mut pairs = Vec::new(alloc);
    for pair in unsafe_pairs {
        let both = both_of(words.plan(), *pair);
        if !has_interrupt(words.plan(), *pair) && is_between(groups, apart, both) {
            pairs.push(both)?;
        }
    }
    Ok(pairs)
}

// The items for two groups with these unsafe pairs: a group stands for its messages where most of them clash. Each pair has an
// item of its own where no group does so, and where they are few and less is left unchecked.
fn items_for(
    alloc: Global,
    words: PlanWords<'_>,
    groups: &Groups,
    clash: Apart,
    pairs: &[(u32, u32)],
) -> Result<Vec<Apart>, AllocError> {
    let firsts = sides_of(alloc, groups, clash.first, pairs, true)?;
    let seconds = sides_of(alloc, groups, clash.second, pairs, false)?;
    let each = each_with_each(alloc, firsts.as_slice(), seconds.as_slice())?;
    let has_group = firsts.iter().any(is_group) || seconds.iter().any(is_group);
    let is_dear = (pairs.len() as u64) < left_out_by(words, groups, each.as_slice());
    if !has_group || pairs.len() <= FEW && is_dear {
        return singles(alloc, pairs);
    }
    Ok(each)
}

fn singles(alloc: Global, pairs: &[(u32, u32)]) -> Result<Vec<Apart>, AllocError> {
    let mut items = Vec::with_capacity(alloc, pairs.len())?;
    for (first, second) in pairs {
        items.push(Apart {
            first: Side::Message(*first),
            second: Side::Message(*second),
        })?;
    }
    Ok(items)
}

fn is_group(side: &Side) -> bool {
    matches!(side, Side::Group(_))
}

// What stands for the messages of a group that these pairs have on one side: the group itself, or each of them.
fn sides_of(
    alloc: Global,
    groups: &Groups,
    group: Side,
    pairs: &[(u32, u32)],
    is_first: bool,
) -> Result<Vec<Side>, AllocError> {
    let mut clashing: Vec<u32> = Vec::new(alloc);
    for pair in pairs {
        let p = if is_first { pair.0 } else { pair.1 };
        if !clashing.contains(&p) {
            clashing.push(p)?;
        }
    }
    let mut sides = Vec::new(alloc);
    if groups.size(group) < clashing.len().saturating_mul(2) {
        sides.push(group)?;
        return Ok(sides);
    }
    for p in clashing.as_slice() {
        sides.push(Side::Message(*p))?;
    }
    Ok(sides)
}

fn each_with_each(
    alloc: Global,
    firsts: &[Side],
    seconds: &[Side],
) -> Result<Vec<Apart>, AllocError> {
    let mut items = Vec::new(alloc);
    for first in firsts {
        for second in seconds {
            items.push(Apart {
                first: *first,
                second: *second,
            })?;
        }
    }
    Ok(items)
}

// How many pairs these items leave unchecked that the plan has. No two of them keep the same pair apart.
fn left_out_by(words: PlanWords<'_>, groups: &Groups, items: &[Apart]) -> u64 {
    let mut pairs = 0u64;
    for item in items {
        for x in 0..words.plan().participants() {
            if groups.has(item.first, x) {
                pairs = pairs.saturating_add(pairs_with(words, groups, x, item.second));
            }
        }
    }
    pairs
}

// How many pairs the plan has of this participant and what a side stands for.
fn pairs_with(words: PlanWords<'_>, groups: &Groups, x: u32, side: Side) -> u64 {
    let participants = 0..words.plan().participants();
    let is_one = |y: &u32| groups.has(side, *y) && are_a_pair(words, x, *y);
    participants.filter(is_one).count() as u64
}

fn are_a_pair(words: PlanWords<'_>, x: u32, y: u32) -> bool {
    match (
        controller_of(words.plan(), x),
        controller_of(words.plan(), y),
    ) {
        (Some(c), Some(d)) => c != d && !is_never(words.plan(), c, d),
        _ => false,
    }
}

// ---- in the words of briefs

// The items as they are written. None where a brief could not have them.
fn said(
    alloc: Global,
    words: PlanWords<'_>,
    groups: &Groups,
    items: &[Apart],
) -> Result<Option<Kept>, AllocError> {
    let mut nevers = Vec::new(alloc);
    for item in items {
        nevers.push(never_of(alloc, words, groups, *item)?)?;
    }
    if !are_free(alloc, words, nevers.as_slice())? {
        return Ok(None);
    }
    let unchecked = left_out_by(words, groups, items);
    Ok(Some(Kept { nevers, unchecked }))
}

fn never_of(
    alloc: Global,
    words: PlanWords<'_>,
    groups: &Groups,
    item: Apart,
) -> Result<Never, AllocError> {
    Ok(Never {
        first: side_of(alloc, words, groups, item.first)?,
        second: side_of(alloc, words, groups, item.second)?,
    })
}

// A controller that sends nothing else is named itself.
fn side_of(
    alloc: Global,
    words: PlanWords<'_>,
    groups: &Groups,
    side: Side,
) -> Result<String, AllocError> {
    let (Side::Message(p) | Side::Group(p)) = side;
    let size = groups.size(side);
    match (controller_of(words.plan(), p), family_of(words, p)) {
        (Some(c), _) if sendings(words.plan(), c) == size as u64 && is_whole(words, c) => {
            words.side(alloc, c)
        }
        (Some(c), Some(family)) if 1 < size => words.family_label(alloc, c, family),
        _ => words.label(alloc, p),
    }
}

// Whether a brief can have these items: no label is too long, and each has a name for its part, of which there are not too many.
fn are_free(alloc: Global, words: PlanWords<'_>, nevers: &[Never]) -> Result<bool, AllocError> {
    let mut labels: Vec<&str> = Vec::new(alloc);
    for never in nevers {
        push_label(&mut labels, never.first.as_str())?;
        push_label(&mut labels, never.second.as_str())?;
    }
    let parts = (words.plan().controllers() as usize).saturating_add(labels.len());
    if (MOST_CONTROLLERS as usize) < parts {
        return Ok(false);
    }
    for label in labels.as_slice() {
        let is_taken = is_taken_by(labels.as_slice(), label);
        if LABEL < label.len() || is_taken || is_taken_in(alloc, words, label)? {
            return Ok(false);
        }
    }
    Ok(true)
}

fn push_label<'a>(labels: &mut Vec<&'a str>, side: &'a str) -> Result<(), AllocError> {
    if side.contains('/') && !labels.contains(&side) {
        labels.push(side)?;
    }
    Ok(())
}

// Whether the part of another one of these labels has the name of this one's.
fn is_taken_by(labels: &[&str], label: &str) -> bool {
    labels
        .iter()
        .any(|other| **other != *label && is_name_of(label, other))
}

// Whether a controller, or the part of another label, has the name of the part of this one.
fn is_taken_in(alloc: Global, words: PlanWords<'_>, label: &str) -> Result<bool, AllocError> {
    let plan = words.plan();
    for c in 0..plan.controllers() {
        if is_name_of(label, words.name(c)) {
            return Ok(true);
        }
        if is_name_of(label, plan.controller_name(c).as_str()) {
            let side = words.side(alloc, c)?;
            if *side.as_str() != *label {
                return Ok(true);
            }
        }
    }
    Ok(false)
}

// Whether the part of a label has this name, or that of a label that is given in its place.
fn is_name_of(label: &str, name: &str) -> bool {
    label.len() == name.len()
        && label
            .bytes()
            .zip(name.bytes())
            .all(|(one, other)| joint(one) == joint(other))
}

// A part has `_` in the place of the `/` of its label.
fn joint(byte: u8) -> u8 {
    if byte == b'/' { b'_' } else { byte }
}
