// What a check finds of a plan text.

ghost use Rattle.std.specs.Prelude.{◌≡◌, ◌<◌, ◌≤◌, ◌⊎◌, ◌↔◌, IfOk, IfErr};
ghost use Rattle.plan_core.specs.PlanContents.{plan_contents};
ghost use Rattle.report.specs.Found.{CheckOf};
ghost use Rattle.run_parts.specs.Finding.{Finds};
ghost use Rattle.run_parts.specs.PlanTexts.{RefusesPlan};
ghost use Rattle.run_parts.specs.Runs.{ReadsText, HaltsAtText};
ghost use Rattle.verdicts.specs.Faults.{AreFaults, fault_list};

use plan_core::Plan;
use run_parts::{Input, RunError};
use std::alloc::{AllocError, Global};
use std::thread::Threads;
use verdicts::{Checked, Faults, Gate, MOST_WORKERS, faults_with};
use verifying::find_plan;

/// Checks the plan that the reader gives.
///
/// The work is shared among so many workers, each in a thread of its own where one can be made; what is found is the same
/// for each number of them. A worker calls the gate before and after each two senders that it takes; what the gate does
/// changes nothing. The number of workers is looked at before the first read.
///
/// # Errors
///
/// `Workers` for 0 and for more than 8 workers. Then `Read` where the reader failed or gave no end, and `Plan` with the
/// first refusal of the plan text. `NoMemory` where an allocation fails.
pub fn check_plan<R: Threads + Sync, I: Input, G: Gate + Sync>(
    rt: &R,
    alloc: Global,
    plan: &mut I,
    workers: u32,
    gate: &G,
) -> Result<Checked, RunError>
    ensures found { IfOk result (λ it. Finds (ReadsText I.reader) CheckOf plan.old it plan.new) }
    ensures stops { (1 ≤ workers) × (workers ≤ MOST_WORKERS) → IfErr result (λ error.
        HaltsAtText I.reader RefusesPlan plan.old error plan.new) }
    ensures workers { result ≡ Err RunError.Workers ↔ ((workers < 1) ⊎ (MOST_WORKERS < workers)) }
    ensures unread { (workers < 1) ⊎ (MOST_WORKERS < workers) → plan.new ≡ plan.old }
{
    if workers < 1 || MOST_WORKERS < workers {
        return Err(RunError::Workers);
    }
    let plan = find_plan(alloc, plan)?;
    let faults = faults_by(rt, alloc, &plan, workers, gate)?;
    Ok(Checked { plan, faults })
}

/// The same of a plan that was found.
///
/// # Errors
///
/// `Workers` for 0 and for more than 8 workers, and `NoMemory` where an allocation fails.
pub fn check_found<R: Threads + Sync, G: Gate + Sync>(
    rt: &R,
    alloc: Global,
    plan: Plan,
    workers: u32,
    gate: &G,
) -> Result<Checked, RunError>
    ensures plan { IfOk result (λ it. plan_contents it.plan ≡ plan_contents plan) }
    ensures right { IfOk result (λ it. AreFaults (plan_contents it.plan) (fault_list it.faults)) }
    ensures stops { (1 ≤ workers) × (workers ≤ MOST_WORKERS) → IfErr result (λ error. error ≡ RunError.NoMemory) }
    ensures workers { result ≡ Err RunError.Workers ↔ ((workers < 1) ⊎ (MOST_WORKERS < workers)) }
{
    if workers < 1 || MOST_WORKERS < workers {
        return Err(RunError::Workers);
    }
    let faults = faults_by(rt, alloc, &plan, workers, gate)?;
    Ok(Checked { plan, faults })
}

// The faults of the plan, found by so many workers, where these are not too few and not too many.
fn faults_by<R: Threads + Sync, G: Gate + Sync>(
    rt: &R,
    alloc: Global,
    plan: &Plan,
    workers: u32,
    gate: &G,
) -> Result<Faults, AllocError>
    requires some { 1 ≤ workers }
    requires few { workers ≤ MOST_WORKERS }
    ensures { IfOk result (λ faults. AreFaults (plan_contents plan.now) (fault_list faults)) }
{
    match faults_with(rt, alloc, plan, workers, gate) {
        Ok(faults) => Ok(faults),
        Err(_) => Err(AllocError),
    }
}
