// The pairs of a plan that are not safe, found on one thread.

ghost use Rattle.std.specs.Prelude.{length, IfOk};
ghost use Rattle.plan_core.specs.PlanContents.{plan_contents};
ghost use Rattle.plan_core.specs.Pairs.{pairs_of};
ghost use Rattle.verdicts.specs.Known.{KnowsPairs};
ghost use Rattle.verdicts.specs.Faults.{AreFaults, fault_list};

use crate::known::{Known, known_pairs};
use crate::listed::{Faults, list_if_unsafe};
use plan_core::Plan;
use std::alloc::{AllocError, Global};

/// The pairs of the plan that are not safe, each with its first fault, in the order of the pairs.
///
/// No proof is made. Two senders, of which each is a message or an interrupt, are compared once however many pairs
/// they make. Memory is taken for the nodes of the messages, at most as many as the plan has, for what is known of two
/// senders, 82,944 times at most, and for the number of each unsafe pair.
pub fn faults(alloc: Global, plan: &Plan) -> Result<Faults, AllocError>
    ensures { IfOk result (λ faults. AreFaults (plan_contents plan.now) (fault_list faults)) }
{
    faults_known(alloc, plan, known_pairs(alloc, plan)?)
}

/// The pairs that are not safe, where it is known what all pairs come to.
pub(crate) fn faults_known(
    alloc: Global,
    plan: &Plan,
    known: Vec<Known>,
) -> Result<Faults, AllocError>
    requires { KnowsPairs (plan_contents plan.now) known.items (length (pairs_of (plan_contents plan.now))) }
    ensures { IfOk result (λ faults. AreFaults (plan_contents plan.now) (fault_list faults)) }
{
    let mut listed = Vec::new(alloc);
    for i in 0..plan.pair_count() {
        list_if_unsafe(&mut listed, &known, i, plan.sender_place(i))?;
    }
    Ok(Faults { known, listed })
}
