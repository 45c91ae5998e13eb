// The unsafe pairs of a plan, in groups of one cause each, and between whom each group is.

ghost use Rattle.std.specs.Prelude.{◌≡◌, length};
ghost use Rattle.plan_core.specs.PlanContents.{plan_contents};
ghost use Rattle.remedies.specs.Numbers.{group_numbers};
ghost use Rattle.verdicts.specs.Faults.{AreFaults, fault_list};

use crate::apart::both_of;
use crate::families::{called_of, families_of, party_of};
use crate::ranks::Ranked;
use bus_rows::{Labels, called_by};
use causes::{Family, Group, groups_of};
use plan_core::Plan;
use plan_words::PlanWords;
use std::alloc::{AllocError, Global};
use verdicts::{Checked, Faults};

// What an unsafe pair counts for: the number of its group, and the first participants who are called as its two are with all of
// their families.
type Key = (usize, u32, u32);

// The pairs of a group whose participants are called alike so: who they are, how many pairs, and the place of the first one
// among the unsafe pairs.
#[derive(Clone, Copy)]
struct Meet {
    group: usize,
    first: Called,
    second: Called,
    pairs: usize,
    example: usize,
}

// An unsafe pair: its two, and its place among all of them.
type Unsafe = ((u32, u32), usize);

// One side of these pairs: a participant, and whether there are others.
#[derive(Clone, Copy)]
struct Called {
    participant: u32,
    has_others: bool,
}

impl Meet {
    fn new(group: usize, one: Unsafe) -> Meet {
        let (both, example) = one;
        Meet {
            group,
            first: Called::new(both.0),
            second: Called::new(both.1),
            pairs: 1,
            example,
        }
    }

    // The same with this pair after the others.
    fn with(self, one: Unsafe) -> Meet {
        let (both, _) = one;
        Meet {
            first: self.first.with(both.0),
            second: self.second.with(both.1),
            pairs: self.pairs.saturating_add(1),
            ..self
        }
    }
}

impl Called {
    fn new(participant: u32) -> Called {
        Called {
            participant,
            has_others: false,
        }
    }

    fn with(self, participant: u32) -> Called {
        Called {
            participant: self.participant,
            has_others: self.has_others || self.participant != participant,
        }
    }
}

/// The pairs of a group whose participants are called alike.
#[derive(Clone, Copy)]
pub struct Alike<'a> {
    /// What the two are called: with all of its family, where several of it meet there, and else alone.
    pub called: (&'a str, &'a str),
    /// How many they are.
    pub pairs: usize,
    /// The first one: its place among the unsafe pairs.
    pub example: usize,
}

/// The unsafe pairs of a plan, in groups of one cause each: the one with the most pairs first.
pub struct Grouped {
    groups: Ranked,
    labels: Labels,
    /// What the family of each message is called.
    families: Vec<String>,
    /// What each participant is called with all of its family.
    parties: Vec<String>,
    /// Who meets in the groups, group by group, and no two twice.
    meets: Vec<Meet>,
    /// Where those of each group begin.
    starts: Vec<usize>,
}

// Written out, so that one call lets it go.
impl Drop for Grouped {
    fn drop(self) {
        let Self {
            groups: _,
            labels: _,
            families: _,
            parties: _,
            meets: _,
            starts: _,
        } = self;
    }
}

impl Grouped {
    /// How many groups there are.
    pub fn len(&self) -> usize {
        self.groups.len()
    }

    /// The group with this number.
    pub fn group(&self, g: usize) -> Option<Group> {
        self.groups.get(g)
    }

    /// The number of the group in which the `k`th unsafe pair stands.
    pub fn number_of(&self, k: usize) -> Option<usize> {
        self.groups.numbers().get(k).copied()
    }

    /// How often two meet in this group who are called otherwise.
    pub fn meets(&self, g: usize) -> usize {
        let (from, to) = self.range(g);
        to.saturating_sub(from)
    }

    /// The pairs of the `i`th of these.
    pub fn alike(&self, g: usize, i: usize) -> Option<Alike<'_>> {
        let (from, to) = self.range(g);
        let at = from.saturating_add(i);
        if to <= at {
            return None;
        }
        let meet = self.meets.get(at)?;
        Some(Alike {
            called: (self.name(meet.first), self.name(meet.second)),
            pairs: meet.pairs,
            example: meet.example,
        })
    }

    /// What the two of the `i`th of these are called.
    pub fn meet(&self, g: usize, i: usize) -> (&str, &str) {
        match self.alike(g, i) {
            Some(alike) => alike.called,
            None => ("", ""),
        }
    }

    /// For each unsafe pair the number of its group.
    pub fn numbers(&self) -> &[usize]
        ensures { result.now ≡ group_numbers self.now }
    {
        self.groups.numbers()
    }

    /// What the family of a message is called, which is the name of the message where it is alone in it.
    pub fn family(&self, m: u32) -> &str {
        text_at(self.families.as_slice(), m)
    }

    /// What a participant is called with all of its family.
    pub fn party(&self, p: u32) -> &str {
        text_at(self.parties.as_slice(), p)
    }

    // Where those who meet in this group begin, and where they end.
    fn range(&self, g: usize) -> (usize, usize) {
        let end = self.meets.len();
        (
            at(self.starts.as_slice(), g, end),
            at(self.starts.as_slice(), g.saturating_add(1), end),
        )
    }

    fn name(&self, called: Called) -> &str {
        if called.has_others {
            self.party(called.participant)
        } else {
            self.labels.of(called.participant)
        }
    }
}

fn text_at(texts: &[String], k: u32) -> &str {
    match texts.get(k as usize) {
        Some(text) => text.as_str(),
        None => "",
    }
}

fn at(starts: &[usize], g: usize, end: usize) -> usize {
    match starts.get(g) {
        Some(start) => *start,
        None => end,
    }
}

/// The groups of the unsafe pairs of the plan, which has these faults, in these words of it. There are
/// none of a safe plan.
///
/// # Errors
///
/// Where an allocation fails.
pub fn grouped_of(
    alloc: Global,
    plan: &Plan,
    words: PlanWords<'_>,
    faults: &Faults,
) -> Result<Grouped, AllocError>
    requires { AreFaults (plan_contents plan.now) (fault_list faults.now) }
{
    let families = families_of(alloc, plan, words)?;
    let groups = ranked_of(alloc, plan, families.as_slice(), faults)?;
    let labels = called_by(alloc, words)?;
    let parties = parties_of(alloc, words, families.as_slice())?;
    let meets = meets_of(alloc, plan, faults, &groups, parties.as_slice())?;
    let starts = starts_of(alloc, meets.as_slice())?;
    let families = all_called(alloc, words, families.as_slice())?;
    Ok(Grouped {
        groups,
        labels,
        families,
        parties,
        meets,
        starts,
    })
}

/// How many groups the unsafe pairs of a plan that was checked are, in these words of it.
///
/// # Errors
///
/// Where an allocation fails.
pub fn count_groups(
    alloc: Global,
    checked: &Checked,
    words: PlanWords<'_>,
) -> Result<usize, AllocError>
    requires { AreFaults (plan_contents checked.now.plan) (fault_list checked.now.faults) }
{
    let Checked { plan, faults } = checked;
    let groups = grouped_of(alloc, plan, words, faults)?;
    Ok(groups.len())
}

fn ranked_of(
    alloc: Global,
    plan: &Plan,
    families: &[Family],
    faults: &Faults,
) -> Result<Ranked, AllocError>
    requires families { length families.now ≡ length (plan_contents plan.now).messages }
    requires faults { AreFaults (plan_contents plan.now) (fault_list faults.now) }
{
    let groups = groups_of(alloc, plan, families, faults)?;
    Ranked::of(alloc, &groups)
}

fn all_called(
    alloc: Global,
    words: PlanWords<'_>,
    families: &[Family],
) -> Result<Vec<String>, AllocError> {
    let mut called = Vec::with_capacity(alloc, families.len())?;
    for m in 0..words.plan().messages() {
        called.push(called_of(alloc, words, families, m)?)?;
    }
    Ok(called)
}

fn parties_of(
    alloc: Global,
    words: PlanWords<'_>,
    families: &[Family],
) -> Result<Vec<String>, AllocError> {
    let participants = words.plan().participants();
    let mut parties = Vec::with_capacity(alloc, participants as usize)?;
    for p in 0..participants {
        parties.push(party_of(alloc, words, families, p)?)?;
    }
    Ok(parties)
}

// For each participant the first one that is called as it is.
fn firsts_of(alloc: Global, parties: &[String]) -> Result<Vec<u32>, AllocError> {
    let mut firsts = Vec::with_capacity(alloc, parties.len())?;
    for party in parties {
        firsts.push(first_called(parties, party.as_str()))?;
    }
    Ok(firsts)
}

fn first_called(parties: &[String], name: &str) -> u32 {
    let mut first = 0u32;
    for party in parties {
        if party.as_str() == name {
            return first;
        }
        first = first.saturating_add(1);
    }
    first
}

// Who meets in the groups, in their order.
fn meets_of(
    alloc: Global,
    plan: &Plan,
    faults: &Faults,
    groups: &Ranked,
    parties: &[String],
) -> Result<Vec<Meet>, AllocError> {
    let firsts = firsts_of(alloc, parties)?;
    let mut all = Vec::with_capacity(alloc, faults.len())?;
    for (k, g) in groups.numbers().iter().enumerate() {
        if k < faults.len() {
            let (pair, _) = faults.get(k);
            let both = both_of(plan, pair);
            let key = key_of(*g, both, firsts.as_slice());
            all.push((key, (both, k)))?;
        }
    }
    all.sort()?;
    together(alloc, all.as_slice())
}

fn key_of(g: usize, both: (u32, u32), firsts: &[u32]) -> Key {
    (g, first_at(firsts, both.0), first_at(firsts, both.1))
}

fn first_at(firsts: &[u32], p: u32) -> u32 {
    match firsts.get(p as usize) {
        Some(first) => *first,
        None => p,
    }
}

// Those that count for the same once: they stand side by side.
fn together(alloc: Global, all: &[(Key, Unsafe)]) -> Result<Vec<Meet>, AllocError> {
    let mut meets = Vec::new(alloc);
    let mut open: Option<(Key, Meet)> = None;
    for (key, one) in all {
        open = match open {
            Some((last, meet)) if last == *key => Some((last, meet.with(*one))),
            before => {
                push_meet(&mut meets, before)?;
                Some((*key, Meet::new(key.0, *one)))
            }
        };
    }
    push_meet(&mut meets, open)?;
    Ok(meets)
}

fn push_meet(meets: &mut Vec<Meet>, meet: Option<(Key, Meet)>) -> Result<(), AllocError> {
    if let Some((_, meet)) = meet {
        meets.push(meet)?;
    }
    Ok(())
}

// Where those of each group begin. Each group has one.
fn starts_of(alloc: Global, meets: &[Meet]) -> Result<Vec<usize>, AllocError> {
    let mut starts = Vec::new(alloc);
    for (k, meet) in meets.iter().enumerate() {
        if meet.group == starts.len() {
            starts.push(k)?;
        }
    }
    Ok(starts)
}
