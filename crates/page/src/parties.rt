// Who takes part, as the page has it: all names, and what each participant sends.

use crate::nodes::{Node, address, nodes_of};
use message_tree::Address;
use order::{Order, Total};
use plan_core::{Participant, Plan};
use plan_words::PlanWords;
use remedies::Grouped;
use serde::{Described, Serialize, Serializer};
use std::alloc::{AllocError, Global};

/// The messages of a plan, one after the other, so that the nodes of one alone are held.
#[derive(Clone, Copy)]
pub(crate) struct Messages<'a> {
    pub(crate) alloc: Global,
    pub(crate) plan: &'a Plan,
    pub(crate) groups: &'a Grouped,
}

/// The names of the controllers, as people write them in a `never`.
#[derive(Clone, Copy)]
pub(crate) struct Controllers<'a> {
    pub(crate) alloc: Global,
    pub(crate) words: PlanWords<'a>,
}

/// The interrupts of a plan.
#[derive(Clone, Copy)]
pub(crate) struct Interrupts<'a> {
    pub(crate) alloc: Global,
    pub(crate) plan: &'a Plan,
}

/// The numbers of the two controllers of each `never`, but for those between parts of one controller.
#[derive(Clone, Copy)]
pub(crate) struct Nevers<'a>(pub(crate) PlanWords<'a>);

/// The participants, in the order of their numbers, with how often each wins.
#[derive(Clone, Copy)]
pub(crate) struct Participants<'a> {
    pub(crate) alloc: Global,
    pub(crate) words: PlanWords<'a>,
    pub(crate) order: &'a Order,
    pub(crate) groups: &'a Grouped,
}

#[derive(Drop, Serialize)]
struct Message<'a> {
    name: &'a str,
    // what its family is called, where there are others in it
    #[serde(skip_serializing_if = "Option::is_none")]
    family: Option<&'a str>,
    nodes: Vec<Node>,
}

#[derive(Drop, Serialize)]
struct Interrupt<'a> {
    name: &'a str,
    address: String,
}

#[derive(Drop, Serialize)]
struct Party<'a> {
    label: String,
    // what it is called with its family, where there are others in it
    #[serde(skip_serializing_if = "Option::is_none")]
    family: Option<&'a str>,
    // where its message, or the interrupt itself, stands in a brief
    #[serde(skip_serializing_if = "Option::is_none")]
    place: Option<String>,
    #[serde(skip_serializing_if = "Option::is_none")]
    controller: Option<u32>,
    #[serde(skip_serializing_if = "Option::is_none")]
    message: Option<u32>,
    #[serde(skip_serializing_if = "Option::is_none")]
    interrupt: Option<u32>,
    #[serde(skip_serializing_if = "Option::is_none")]
    total: Option<Counts>,
}

#[derive(Clone, Copy, Serialize)]
struct Counts {
    wins: u32,
    may_win: u32,
    loses: u32,
}

impl Described for Messages<'_> {}

impl Serialize for Messages<'_> {
    fn serialize<S: Serializer>(&self, out: &mut S) -> Result<(), S::Error> {
        out.begin_seq(None)?;
        for k in 0..self.plan.messages() {
            match nodes_of(self.alloc, self.plan.message(k)) {
                Ok(nodes) => self.message(k, nodes).serialize(out)?,
                Err(_) => return Err(out.custom("out of memory")),
            }
        }
        out.end_seq()
    }
}

impl<'a> Messages<'a> {
    fn message(&self, k: u32, nodes: Vec<Node>) -> Message<'a> {
        let name = name_of(self.plan, k);
        Message {
            name,
            family: other_than(name, self.groups.family(k)),
            nodes,
        }
    }
}

fn name_of(plan: &Plan, k: u32) -> &str {
    if k < plan.messages() {
        plan.message_name(k).as_str()
    } else {
        ""
    }
}

// What a family is called, where that is not what its member is called.
fn other_than<'a>(own: &str, family: &'a str) -> Option<&'a str> {
    if family == own { None } else { Some(family) }
}

impl Described for Controllers<'_> {}

impl Serialize for Controllers<'_> {
    fn serialize<S: Serializer>(&self, out: &mut S) -> Result<(), S::Error> {
        out.begin_seq(None)?;
        for k in 0..self.words.plan().controllers() {
            match self.words.side(self.alloc, k) {
                Ok(name) => name.serialize(out)?,
                Err(_) => return Err(out.custom("out of memory")),
            }
        }
        out.end_seq()
    }
}

impl Described for Interrupts<'_> {}

impl Serialize for Interrupts<'_> {
    fn serialize<S: Serializer>(&self, out: &mut S) -> Result<(), S::Error> {
        out.begin_seq(None)?;
        for k in 0..self.plan.interrupts() {
            let target = Address::new(0x7f, self.plan.interrupt_address(k));
            match address(self.alloc, &target) {
                Ok(address) => Interrupt {
                    name: self.plan.interrupt_name(k).as_str(),
                    address,
                }
                .serialize(out)?,
                Err(_) => return Err(out.custom("out of memory")),
            }
        }
        out.end_seq()
    }
}

impl Described for Nevers<'_> {}

impl Serialize for Nevers<'_> {
    fn serialize<S: Serializer>(&self, out: &mut S) -> Result<(), S::Error> {
        out.begin_seq(None)?;
        let plan = self.0.plan();
        for k in 0..plan.nevers() {
            let (one, other) = plan.never(k);
            if !self.0.is_one(one, other) {
                (one, other).serialize(out)?;
            }
        }
        out.end_seq()
    }
}

impl Described for Participants<'_> {}

impl Serialize for Participants<'_> {
    fn serialize<S: Serializer>(&self, out: &mut S) -> Result<(), S::Error> {
        out.begin_seq(None)?;
        let plan = self.words.plan();
        for p in 0..plan.participants() {
            match self.party(p, plan.participant(p)) {
                Ok(party) => party.serialize(out)?,
                Err(_) => return Err(out.custom("out of memory")),
            }
        }
        out.end_seq()
    }
}

impl<'a> Participants<'a> {
    fn party(&self, p: u32, participant: Participant) -> Result<Party<'a>, AllocError> {
        let label = self.words.label(self.alloc, p)?;
        let family = other_than(label.as_str(), self.groups.party(p));
        let place = place_of(self.alloc, self.words, p)?;
        Ok(Party {
            family,
            total: self.total(p),
            ..taking_part(label, place, participant)
        })
    }

    // How often the participant wins, where it can win or lose.
    fn total(&self, p: u32) -> Option<Counts> {
        let total = self.order.totals.get(p as usize)?;
        if total.is_empty() {
            return None;
        }
        let Total {
            wins,
            may_win,
            loses,
        } = *total;
        Some(Counts {
            wins,
            may_win,
            loses,
        })
    }
}

// Where the message of a participant stands, or the interrupt that it is.
fn place_of(alloc: Global, words: PlanWords<'_>, p: u32) -> Result<Option<String>, AllocError> {
    match words.item_at(p) {
        Some(place) => Ok(Some(place.spelled(alloc)?)),
        None => Ok(None),
    }
}

fn taking_part<'a>(label: String, place: Option<String>, participant: Participant) -> Party<'a> {
    let (controller, message, interrupt) = match participant {
        Participant::Sending {
            controller,
            message,
        } => (Some(controller), Some(message), None),
        Participant::Interrupt(interrupt) => (None, None, Some(interrupt)),
    };
    Party {
        label,
        family: None,
        place,
        controller,
        message,
        interrupt,
        total: None,
    }
}
