// How often each participant explains a transaction.

use crate::selecting::Selection;
use capture_check::{Transaction, Until};
use plan_core::Plan;
use std::alloc::{AllocError, Global};

/// How often a participant explains a transaction alone, and with others.
#[derive(Clone, Copy)]
pub struct Explains {
    pub alone: u64,
    pub with_others: u64,
}

/// How transactions ended, other than explained.
#[derive(Clone, Copy)]
pub struct Others {
    pub unexplained: u64,
    pub cut: u64,
    pub unfinished: u64,
}

/// The participants of a plan, and the other ends of transactions, counted.
#[derive(Drop)]
pub struct Tallies {
    /// By the number of the participant.
    pub senders: Vec<Explains>,
    pub others: Others,
}

impl Tallies {
    /// The participants of the plan with no transaction, where transactions are counted, and not told.
    ///
    /// # Errors
    ///
    /// Where an allocation fails.
    pub fn wanted(
        alloc: Global,
        plan: &Plan,
        selection: &Selection,
    ) -> Result<Option<Tallies>, AllocError> {
        if selection.is_summary() {
            Ok(Some(Tallies::new(alloc, plan.participants())?))
        } else {
            Ok(None)
        }
    }

    fn new(alloc: Global, participants: u32) -> Result<Tallies, AllocError> {
        let none = Explains {
            alone: 0,
            with_others: 0,
        };
        Ok(Tallies {
            senders: vec![in alloc; none; participants as usize]?,
            others: Others {
                unexplained: 0,
                cut: 0,
                unfinished: 0,
            },
        })
    }

    /// One more transaction, which these explain.
    pub fn count(&mut self, transaction: &Transaction, participants: &[u32]) {
        let others = &mut self.others;
        match transaction.until {
            Until::Cut(_) => others.cut = others.cut.saturating_add(1),
            Until::Unfinished => others.unfinished = others.unfinished.saturating_add(1),
            Until::Stopped(_) if participants.is_empty() => {
                others.unexplained = others.unexplained.saturating_add(1)
            }
            Until::Stopped(_) => self.explained(participants),
        }
    }

    fn explained(&mut self, participants: &[u32]) {
        let is_alone = participants.len() == 1;
        for p in participants {
            if let Some(count) = self.senders.get_mut(*p as usize) {
                count.alone = count.alone.saturating_add(u64::from(is_alone));
                count.with_others = count.with_others.saturating_add(u64::from(!is_alone));
            }
        }
    }
}
