// All pairs of a plan, walked by several workers.

ghost use Rattle.std.specs.Prelude.{◌≡◌, ◌↔◌, ◌<◌, ◌≤◌, ◌⊎◌, ℕ, length, slice_get, Some, Err, IfOk};
ghost use Rattle.plan_core.specs.PlanContents.{plan_contents};
ghost use Rattle.plan_core.specs.Pairs.{pairs_of};
ghost use Rattle.pair_walk.specs.Verdicts.{IsVerdict};
ghost use Rattle.verdicts.specs.Tables.{IsTable};
ghost use Rattle.verdicts.specs.Verdicts.{AreVerdicts};

use crate::errors::TableError;
use crate::gates::Gate;
use crate::sharing::{MOST_WORKERS, share};
use crate::tables::Table;
use pair_walk::{Verdict, walk};
use plan_core::Plan;
use std::alloc::{AllocError, Global};
use std::thread::Threads;

/// The verdicts of all pairs of the plan, in the order of the pairs: the table that `table` gives, whatever the gate
/// does and however many threads could be made.
///
/// Worker 0 is the caller. Each pair is walked once, by the worker that takes it, which calls the gate before and
/// after. A worker for which no thread can be made works after the caller, and mostly finds no pair left.
///
/// # Errors
///
/// `Workers` exactly for 0 and for more than `MOST_WORKERS`, before anything else is done. Else `NoMemory` where an
/// allocation fails.
pub fn table_with<R: Threads + Sync, G: Gate + Sync>(
    rt: &R,
    alloc: Global,
    plan: &Plan,
    workers: u32,
    gate: &G,
) -> Result<Table, TableError>
    ensures table { IfOk result (IsTable (plan_contents plan.now)) }
    ensures workers { result ≡ Err TableError.Workers ↔ ((workers < 1) ⊎ (MOST_WORKERS < workers)) }
{
    if workers < 1 || MOST_WORKERS < workers {
        return Err(TableError::Workers);
    }
    let verdicts = walked(rt, alloc, plan, workers, gate)?;
    Ok(Table { verdicts })
}

// The verdicts of all pairs, by so many workers.
fn walked<R: Threads + Sync, G: Gate + Sync>(
    rt: &R,
    alloc: Global,
    plan: &Plan,
    workers: u32,
    gate: &G,
) -> Result<Vec<Verdict>, AllocError>
    requires { (0 < workers) × (workers ≤ MOST_WORKERS) }
    ensures { IfOk result (λ v. AreVerdicts (plan_contents plan.now) v.items) }
{
    share(
        rt,
        alloc,
        plan.pair_count(),
        workers,
        gate,
        &|i: u32| -> Result<Verdict, AllocError>
            requires { i < length (pairs_of (plan_contents plan.now)) }
            ensures { IfOk result (λ v. (v.pair ≡ i) × ((x y : ℕ) →
                slice_get (pairs_of (plan_contents plan.entry.now)) i ≡ Some (x, y) →
                IsVerdict (plan_contents plan.entry.now) x y v.outcome)) }
        { walk(alloc, plan, i) },
    )
}
