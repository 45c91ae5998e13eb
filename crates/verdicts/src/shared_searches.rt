// The pairs of a plan that are not safe, found by several workers.

ghost use Rattle.std.specs.Prelude.{◌≡◌, ◌↔◌, ◌<◌, ◌⊎◌, Err, IfOk};
ghost use Rattle.plan_core.specs.PlanContents.{plan_contents};
ghost use Rattle.verdicts.specs.Faults.{AreFaults, fault_list};

use crate::errors::TableError;
use crate::gates::Gate;
use crate::listed::Faults;
use crate::samples::known_together;
use crate::searches::faults_known;
use crate::sharing::MOST_WORKERS;
use plan_core::Plan;
use std::alloc::Global;
use std::thread::Threads;

/// The pairs of the plan that are not safe, each with its first fault, in the order of the pairs: the list that
/// `faults` gives, whatever the gate does and however many threads could be made.
///
/// Worker 0 is the caller. What the workers share out are the places of two senders, of which each is a message or an
/// interrupt. Each place is worked on once, by the worker that takes it, which calls the gate before and after with the
/// number of the place: where the two make a pair, they are compared. The pairs are looked up afterwards, by the
/// caller.
///
/// # Errors
///
/// `Workers` exactly for 0 and for more than `MOST_WORKERS`, before anything else is done. Else `NoMemory` where an
/// allocation fails.
pub fn faults_with<R: Threads + Sync, G: Gate + Sync>(
    rt: &R,
    alloc: Global,
    plan: &Plan,
    workers: u32,
    gate: &G,
) -> Result<Faults, TableError>
    ensures faults { IfOk result (λ faults. AreFaults (plan_contents plan.now) (fault_list faults)) }
    ensures workers { result ≡ Err TableError.Workers ↔ ((workers < 1) ⊎ (MOST_WORKERS < workers)) }
{
    if workers < 1 || MOST_WORKERS < workers {
        return Err(TableError::Workers);
    }
    let known = known_together(rt, alloc, plan, workers, gate)?;
    Ok(faults_known(alloc, plan, known)?)
}
