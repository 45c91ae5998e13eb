// What is known of each two senders. It depends on what the two send alone, so it is found once, however many controllers
// send the same.

ghost use Rattle.std.specs.Prelude.{◌≡◌, ◌<◌, replicate, None, IfOk};
ghost use Rattle.arbitration.specs.Plans.{AreLaid};
ghost use Rattle.order.specs.Known.{Between};
ghost use Rattle.plan_core.specs.Participants.{participant_count, Text};
ghost use Rattle.plan_core.specs.PlanContents.{plan_contents};
ghost use Rattle.plan_core.specs.SenderPlaces.{sender_count, sender_number};

use arbitration::{LaidOut, Outcomes, of_pair};
use plan_core::{Participant, Plan};
use std::alloc::{AllocError, Global};

/// The outcomes of each two senders of a plan that have been asked for.
#[derive(Drop)]
pub(crate) struct Known {
    // By the number of the first sender and then by that of the second, which is the same or a greater one.
    pub(crate) found: Vec<Option<Outcomes>>,
    pub(crate) senders: usize,
}

impl Known {
    ghost use Rattle.order.specs.Known.{IsMemo};

    /// Nothing is known of the senders of this plan: its messages, and then its interrupts.
    pub(crate) fn new(alloc: Global, plan: &Plan) -> Result<Known, AllocError>
        ensures { IfOk result (λ known. IsMemo (plan_contents plan.now) known) }
    {
        Ok(Known {
            found: unknown(alloc, plan.sender_places())?,
            senders: senders(plan),
        })
    }

    /// The outcomes of these two participants.
    pub(crate) fn of(&mut self, plan: &Plan, laid: &LaidOut, x: u32, y: u32) -> Outcomes
        requires laid { AreLaid (plan_contents plan.now) laid.now }
        requires x_within { x < participant_count (plan_contents plan.now) }
        requires y_within { y < participant_count (plan_contents plan.now) }
        requires memo { IsMemo (plan_contents plan.now) self.old }
        ensures memo { IsMemo (plan_contents plan.now) self.new }
        ensures outcomes { Between (Text (plan_contents plan.now) x) (Text (plan_contents plan.now) y) result }
    {
        if sender(plan, x) <= sender(plan, y) {
            self.at(plan, laid, x, y)
        } else {
            exchanged(self.at(plan, laid, y, x))
        }
    }

    // The same, kept at the place of the two.
    fn at(&mut self, plan: &Plan, laid: &LaidOut, x: u32, y: u32) -> Outcomes
        requires laid { AreLaid (plan_contents plan.now) laid.now }
        requires x_within { x < participant_count (plan_contents plan.now) }
        requires y_within { y < participant_count (plan_contents plan.now) }
        requires memo { IsMemo (plan_contents plan.now) self.old }
        ensures memo { IsMemo (plan_contents plan.now) self.new }
        ensures outcomes { Between (Text (plan_contents plan.now) x) (Text (plan_contents plan.now) y) result }
    {
        let place = sender(plan, x) * self.senders + sender(plan, y);
        if let Some(known) = self.found[place] {
            return known;
        }
        let outcomes = of_pair(plan, laid, x, y);
        self.found[place] = Some(outcomes);
        outcomes
    }
}

fn unknown(alloc: Global, places: usize) -> Result<Vec<Option<Outcomes>>, AllocError>
    ensures { IfOk result (λ found. found.items ≡ replicate places None) }
{
    let mut found = Vec::with_capacity(alloc, places)?;
    for _ in 0..places {
        found.push(None)?;
    }
    Ok(found)
}

// The outcomes of the same two, the second of them named first.
fn exchanged(outcomes: Outcomes) -> Outcomes
    ensures both { result.both ≡ outcomes.both }
    ensures first { result.first ≡ outcomes.second }
    ensures second { result.second ≡ outcomes.first }
{
    let Outcomes {
        both,
        first,
        second,
    } = outcomes;
    Outcomes {
        both,
        first: second,
        second: first,
    }
}

// How many senders there are: messages, and then interrupts.
fn senders(plan: &Plan) -> usize
    ensures { result ≡ sender_count (plan_contents plan.now) }
{
    plan.messages() as usize + plan.interrupts() as usize
}

// The number of what a participant sends.
fn sender(plan: &Plan, p: u32) -> usize
    requires { p < participant_count (plan_contents plan.now) }
    ensures value { result ≡ sender_number (plan_contents plan.now) p }
    ensures within { result < sender_count (plan_contents plan.now) }
{
    match plan.participant(p) {
        Participant::Sending { message, .. } => message as usize,
        Participant::Interrupt(k) => plan.messages() as usize + k as usize,
    }
}
