// Which participants of a plan explain a transaction.

ghost use Rattle.std.specs.Prelude.{◌≡◌, ◌<◌, ◌↔◌, IsTrue, IfOk, Some};
ghost use Rattle.plan_core.specs.Participants.{participant_count};
ghost use Rattle.plan_core.specs.PlanContents.{plan_contents};
ghost use Rattle.plan_core.specs.Senders.{what_is_sent};
ghost use Rattle.capture_check.specs.Explained.{AreExplainers, AreLeavers, MayLeave};
ghost use Rattle.capture_check.specs.Views.{recorded};

use crate::listening::{Mark, Transaction, Until};
use crate::texts::{frame_fits, interrupt_fits};
use plan_core::{Plan, Sends};
use std::alloc::{AllocError, Global};

/// The participants that explain the transaction, by their numbers and in increasing order. A controller with a message
/// explains a transaction that a STOP ended where a text of the message has its marks; an interrupt explains it where its
/// header is the first eight. Nobody explains a transaction that was cut or is unfinished.
pub fn explain(
    alloc: Global,
    plan: &Plan,
    transaction: &Transaction,
) -> Result<Vec<u32>, AllocError>
    ensures { IfOk result (λ ps. AreExplainers (plan_contents plan.now) (recorded transaction.now) ps.items) }
{
    match transaction.until {
        Until::Stopped(_) => explain_marks(alloc, plan, &transaction.marks),
        Until::Cut(_) | Until::Unfinished => Ok(Vec::new(alloc)),
    }
}

// The participants that may leave these marks.
fn explain_marks(alloc: Global, plan: &Plan, marks: &[Mark]) -> Result<Vec<u32>, AllocError>
    ensures { IfOk result (λ ps. AreLeavers (plan_contents plan.now) marks.now ps.items) }
{
    let mut explainers = Vec::new(alloc);
    for p in 0..plan.participants() {
        if may_leave(&plan.sends(p), marks) {
            explainers.push(p)?;
        }
    }
    Ok(explainers)
}

// Whether who sends this may leave these marks.
fn may_leave(sends: &Sends<'_>, marks: &[Mark]) -> bool
    ensures { IsTrue result ↔ MayLeave (what_is_sent sends.now) marks.now }
{
    match sends {
        Sends::Message(frame) => frame_fits(frame, marks),
        Sends::Interrupt(address) => interrupt_fits(address, marks),
    }
}
