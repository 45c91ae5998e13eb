// The outcomes of two participants of a plan.

ghost use Rattle.std.specs.Prelude.{◌<◌, ◌^◌, ◌≢◌, OnOk, IfOk};
ghost use Rattle.plan_core.specs.PlanContents.{plan_contents};
ghost use Rattle.plan_core.specs.Lawful.{pair};
ghost use Rattle.plan_core.specs.Participants.{participant_count, Text};
ghost use Rattle.plan_core.specs.Senders.{what_is_sent};
ghost use Rattle.arbitration.specs.Arbitration.{EndTogether, Wins, sender_slots};
ghost use Rattle.arbitration.specs.Frames.{AreFrames, Grows, trees_of};
ghost use Rattle.arbitration.specs.Laws.{EndsAt, BeatsAt};
ghost use Rattle.arbitration.specs.Plans.{AreLaid};
ghost use Rattle.arbitration.specs.Senders.{IsSent};
ghost use Rattle.arbitration.specs.Spans.{IsSpan};

use crate::frames::Frames;
use crate::senders::{Sent, outcomes};
use crate::spans::Outcomes;
use plan_core::{Plan, Sends};
use std::alloc::{AllocError, Global};

/// What the participants of a plan send, as `of_pair` needs it: their messages with a number for each frame in them.
#[derive(Drop)]
pub struct LaidOut {
    pub(crate) frames: Frames,
    // by the numbers of the participants
    pub(crate) sent: Vec<Sent>,
}

/// Lays out what the participants of a plan send: some 100 bytes for each byte of a message, and some 200 for each
/// frame, but for the frames that are equal to one before.
///
/// # Errors
///
/// Where an allocation fails.
pub fn laid_out(alloc: Global, plan: &Plan) -> Result<LaidOut, AllocError>
    ensures { IfOk result (λ laid. AreLaid (plan_contents plan.now) laid) }
{
    let mut frames = Frames::new(alloc);
    let mut sent = Vec::new(alloc);
    for p in 0..plan.participants() {
        let sends = plan.sends(p);
        sent.push(numbered(alloc, &mut frames, sends)?)?;
    }
    Ok(LaidOut { frames, sent })
}

// What is sent, its message by number.
fn numbered(alloc: Global, frames: &mut Frames, sends: Sends<'_>) -> Result<Sent, AllocError>
    requires frames { AreFrames frames.old.entries.items }
    requires slots { sender_slots (what_is_sent sends) < 2 ^ 32 }
    ensures frames { OnOk result (AreFrames frames.new.entries.items) }
    ensures grows { OnOk result (Grows frames.old.entries.items frames.new.entries.items) }
    ensures sent { IfOk result (λ sent. IsSent (trees_of frames.new.entries.items) sent (what_is_sent sends.entry)) }
{
    match sends {
        Sends::Message(frame) => {
            let number = frames.lay(alloc, frame)?;
            Ok(Sent::Message(number))
        }
        Sends::Interrupt(address) => Ok(Sent::Interrupt(address)),
    }
}

/// What two participants of a plan may come to when they start together and alone, `x` the first of them: by their
/// texts, and for two different participants by their runs.
pub fn of_pair(plan: &Plan, laid: &LaidOut, x: u32, y: u32) -> Outcomes
    requires laid { AreLaid (plan_contents plan.now) laid.now }
    requires x_within { x < participant_count (plan_contents plan.now) }
    requires y_within { y < participant_count (plan_contents plan.now) }
    ensures both { IsSpan (EndTogether (Text (plan_contents plan.now) x) (Text (plan_contents plan.now) y)) result.both }
    ensures first { IsSpan (Wins (Text (plan_contents plan.now) x) (Text (plan_contents plan.now) y)) result.first }
    ensures second { IsSpan (Wins (Text (plan_contents plan.now) y) (Text (plan_contents plan.now) x)) result.second }
    ensures both_in_runs { x ≢ y → IsSpan (EndsAt (plan_contents plan.now) x y) result.both }
    ensures first_in_runs { x ≢ y → IsSpan (BeatsAt (plan_contents plan.now) (pair x y) x y) result.first }
    ensures second_in_runs { x ≢ y → IsSpan (BeatsAt (plan_contents plan.now) (pair x y) y x) result.second }
{
    outcomes(&laid.frames, laid.sent[x as usize], laid.sent[y as usize])
}
