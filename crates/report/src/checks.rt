// The run of a check, with a gate and without.

ghost use Rattle.std.specs.Prelude.{◌≡◌, ◌<◌, ◌≤◌, ◌⊎◌, ◌↔◌, IsTrue, IfOk, IfErr};
ghost use Rattle.plan_core.specs.Contents.{Contents};
ghost use Rattle.plan_core.specs.Faults.{IsSafe};
ghost use Rattle.report.specs.Checks.{Judges, Checked};
ghost use Rattle.run_parts.specs.PlanTexts.{RefusesPlan};
ghost use Rattle.run_parts.specs.Runs.{ReadsText, HaltsAtText, Reports, Stops};

use crate::checked::check_plan;
use crate::lines::check_report;
use run_parts::{Input, Output, RunError, Status, write_lines};
use std::alloc::Global;
use std::thread::Threads;
use verdicts::{Gate, MOST_WORKERS, NoGate};

/// Checks the plan that the reader gives, and writes the verdicts of its unsafe pairs and their number.
///
/// The work is shared among so many workers, each in a thread of its own where one can be made; the report is the same
/// for each number of them. The number of workers is looked at before the first read. The report is complete before its
/// first byte is written. The status is `Good` or `Bad`.
///
/// # Errors
///
/// `Workers` for 0 and for more than 8 workers. Then `Read` where the reader failed or gave no end, `Plan` with the
/// first refusal of the plan text, and `Write` where the writer failed or took no bytes. `NoMemory` where an allocation
/// fails. Only after `Write` has a part of the report been written: its first bytes. After every other error the writer
/// was not called.
pub fn run_check<I: Input, O: Output>(
    rt: &(impl Threads + Sync),
    alloc: Global,
    plan: &mut I,
    out: &mut O,
    workers: u32,
) -> Result<Status, RunError>
    ensures report { IfOk result (λ status.
        Reports (ReadsText I.reader) Checked O.writer plan.old out.old status plan.new out.new) }
    ensures stops { (1 ≤ workers) × (workers ≤ MOST_WORKERS) → IfErr result (λ error.
        Stops (ReadsText I.reader) Checked O.writer (HaltsAtText I.reader RefusesPlan)
        plan.old out.old error plan.new out.new) }
    ensures workers { result ≡ Err RunError.Workers ↔ ((workers < 1) ⊎ (MOST_WORKERS < workers)) }
    ensures unread { (workers < 1) ⊎ (MOST_WORKERS < workers) → (plan.new ≡ plan.old) × (out.new ≡ out.old) }
{
    run_check_with(rt, alloc, plan, out, workers, &NoGate)
}

/// The same, where a worker calls the gate before and after each two senders that it takes. What the gate does changes
/// nothing.
///
/// # Errors
///
/// Those of `run_check`, in the same order.
pub fn run_check_with<R: Threads + Sync, I: Input, O: Output, G: Gate + Sync>(
    rt: &R,
    alloc: Global,
    plan: &mut I,
    out: &mut O,
    workers: u32,
    gate: &G,
) -> Result<Status, RunError>
    ensures report { IfOk result (λ status.
        Reports (ReadsText I.reader) Checked O.writer plan.old out.old status plan.new out.new) }
    ensures stops { (1 ≤ workers) × (workers ≤ MOST_WORKERS) → IfErr result (λ error.
        Stops (ReadsText I.reader) Checked O.writer (HaltsAtText I.reader RefusesPlan)
        plan.old out.old error plan.new out.new) }
    ensures workers { result ≡ Err RunError.Workers ↔ ((workers < 1) ⊎ (MOST_WORKERS < workers)) }
    ensures unread { (workers < 1) ⊎ (MOST_WORKERS < workers) → (plan.new ≡ plan.old) × (out.new ≡ out.old) }
{
    let checked = check_plan(rt, alloc, plan, workers, gate)?;
    let report = check_report(alloc, &checked)?;
    write_lines(out, report.as_bytes(), status_of(checked.faults.is_safe()))
}

/// The status of a run over a plan that is safe, or is not.
pub fn status_of(is_safe: bool) -> Status
    ensures { (plan : Contents) → (IsTrue is_safe ↔ IsSafe plan) → Judges result plan }
{
    if is_safe { Status::Good } else { Status::Bad }
}
