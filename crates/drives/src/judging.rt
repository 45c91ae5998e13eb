// What a controller did in a transaction, held against the messages that the plan gives it.

use capture_check::{Drove, Mark, Transaction, Until};
use dump_tokens::Drives;
use message_tree::{Bit, Item};
use places::{Offered, Place};
use plan_core::Plan;
use std::alloc::{AllocError, Global};

/// What a controller did in a transaction.
#[derive(Clone, Copy, PartialEq, Eq)]
pub enum Does {
    /// It goes on to the end.
    GoesOn,
    /// It has lost arbitration in this slot, and pulls SDA no more.
    Loses { slot: usize },
    /// It has lost in the first of these slots, and still pulls SDA in the second one.
    PullsOn { slot: usize, again: usize },
    /// In this slot it does what no message of it does there, and pulls SDA or not.
    Departs { slot: usize, pulls: bool },
    /// It has not started, and pulls SDA in this slot.
    JoinsLate { slot: usize },
}

/// A controller, by its number among those that are followed, and what it did.
#[derive(Clone, Copy)]
pub struct Judged {
    pub number: usize,
    pub does: Does,
}

impl Judged {
    /// Whether that is what the rules of the plan give.
    pub fn is_right(self) -> bool {
        matches!(self.does, Does::GoesOn | Does::Loses { .. })
    }
}

/// Transactions, held against the rules of a plan as they end.
#[derive(Drop)]
pub struct Judging<'a> {
    drives: Drives<'a>,
    // for each controller that is followed, the participants of the plan that it can be
    sendings: Vec<Vec<u32>>,
    /// In how many transactions that a STOP ended each controller did what the rules give.
    pub right: u64,
    /// In how many one did not.
    pub wrong: u64,
    /// In how many none of them did anything, and others could.
    pub others: u64,
}

impl<'a> Judging<'a> {
    /// No transaction yet. `sendings` are, for each controller that is followed, the participants of the plan that it can be.
    pub fn new(drives: Drives<'a>, sendings: Vec<Vec<u32>>) -> Judging<'a> {
        Judging {
            drives,
            sendings,
            right: 0,
            wrong: 0,
            others: 0,
        }
    }

    /// The name of the controller with this number.
    pub fn controller(&self, number: usize) -> &'a str {
        match self.drives.all.get(number) {
            Some(drive) => drive.controller,
            None => "",
        }
    }

    /// How many controllers are followed.
    pub fn followed(&self) -> usize {
        self.sendings.len()
    }

    /// What each controller did in the next transaction, which these participants explain. It is counted where it is told.
    ///
    /// # Errors
    ///
    /// Where an allocation fails.
    pub fn judge_next(
        &mut self,
        alloc: Global,
        plan: &Plan,
        transaction: &Transaction,
        participants: &[u32],
        is_told: bool,
    ) -> Result<Verdict, AllocError> {
        let mut all = Vec::new(alloc);
        let Some(drove) = &transaction.drove else {
            return Ok(Verdict {
                all,
                is_denied: false,
            });
        };
        for (number, sendings) in self.sendings.iter().enumerate() {
            let marks = transaction.marks.as_slice();
            if let Some(judged) = judge(plan, sendings.as_slice(), marks, drove, number) {
                all.push(judged)?;
            }
        }
        let verdict = Verdict {
            is_denied: all.is_empty() && self.are_followed(participants),
            all,
        };
        if is_told && matches!(transaction.until, Until::Stopped(_)) {
            self.count(&verdict);
        }
        Ok(verdict)
    }

    // Whether there are participants, and all of them are of controllers that are followed.
    fn are_followed(&self, participants: &[u32]) -> bool {
        let mut are = !participants.is_empty();
        for p in participants {
            are = are && self.is_followed(*p);
        }
        are
    }

    fn is_followed(&self, p: u32) -> bool {
        for sendings in self.sendings.iter() {
            if sendings.as_slice().contains(&p) {
                return true;
            }
        }
        false
    }

    fn count(&mut self, verdict: &Verdict) {
        let mut is_right = true;
        for judged in verdict.all.iter() {
            is_right = is_right && judged.is_right();
        }
        if verdict.is_denied || !is_right {
            self.wrong = self.wrong.saturating_add(1);
        } else if verdict.all.is_empty() {
            self.others = self.others.saturating_add(1);
        } else {
            self.right = self.right.saturating_add(1);
        }
    }
}

/// What the controllers that are followed did in a transaction.
#[derive(Drop)]
pub struct Verdict {
    /// Those that did anything.
    pub all: Vec<Judged>,
    /// Whether none did, and only they could have sent it.
    pub is_denied: bool,
}

/// What the controller with this number did in a transaction with these marks. `sendings` are the participants of the plan that
/// it can be. None where it did nothing.
fn judge(
    plan: &Plan,
    sendings: &[u32],
    marks: &[Mark],
    drove: &Drove,
    number: usize,
) -> Option<Judged> {
    let does = if drove.has_started(number) {
        best_of(plan, sendings, marks, drove, number)
    } else {
        Does::JoinsLate {
            slot: drove.first_pull(number, 0)?,
        }
    };
    Some(Judged { number, does })
}

// What it did as the sending with which that fits best.
fn best_of(plan: &Plan, sendings: &[u32], marks: &[Mark], drove: &Drove, number: usize) -> Does {
    let mut best = Does::Departs {
        slot: 0,
        pulls: drove.pulls(number, 0),
    };
    for p in sendings {
        if *p < plan.participants() {
            let does = follow(Place::start(plan.sends(*p)), marks, drove, number);
            if rank(best) < rank(does) {
                best = does;
            }
        }
    }
    best
}

// The better it fits the greater, and of two of a kind the one that goes along further.
fn rank(does: Does) -> (u8, usize) {
    match does {
        Does::GoesOn => (4, 0),
        Does::Loses { slot } => (3, slot),
        Does::PullsOn { slot, .. } => (2, slot),
        Does::Departs { slot, .. } => (1, slot),
        Does::JoinsLate { slot } => (0, slot),
    }
}

// What a sending does along the marks, where the controller pulls as it does.
fn follow(start: Place<'_>, marks: &[Mark], drove: &Drove, number: usize) -> Does {
    let mut place = start;
    for (slot, mark) in marks.iter().enumerate() {
        let pulls = drove.pulls(number, slot);
        let offered = place.offered();
        let Some(item) = item_of(offered, *mark, pulls) else {
            return Does::Departs { slot, pulls };
        };
        match (item, *mark) {
            (Item::Sent(true), Mark::Level(false)) => return lost(drove, number, slot),
            (Item::Sent(false), Mark::Level(true)) => return Does::Departs { slot, pulls },
            _ if offered.allows(item) => place = place.after(item),
            _ => return Does::Departs { slot, pulls },
        }
    }
    Does::GoesOn
}

// What it does at a mark by pulling SDA or not, if it offers that.
fn item_of(offered: Offered, mark: Mark, pulls: bool) -> Option<Item> {
    match (offered, mark) {
        (Offered::Bit(Bit::Zero), Mark::Level(_)) if pulls => Some(Item::Sent(false)),
        (Offered::Bit(Bit::One), Mark::Level(_)) if !pulls => Some(Item::Sent(true)),
        (Offered::Bit(Bit::Either), Mark::Level(_)) => Some(Item::Sent(!pulls)),
        (Offered::Listen, Mark::Level(level)) if !pulls => Some(Item::Heard(level)),
        (Offered::Again, Mark::Again) if pulls => Some(Item::Again),
        (Offered::Stop, Mark::Stop) if pulls => Some(Item::Stop),
        _ => None,
    }
}

// What it did from the slot on in which it has lost.
fn lost(drove: &Drove, number: usize, slot: usize) -> Does {
    match drove.first_pull(number, slot) {
        Some(again) => Does::PullsOn { slot, again },
        None => Does::Loses { slot },
    }
}
