// The run that checks a plan.

ghost use Rattle.std.specs.Prelude.{◌≡◌, ◌<◌, ◌≤◌, ◌⊎◌, ◌↔◌, IfOk, IfErr, IsErrAnd, IfSome};
ghost use Rattle.plan_core.specs.PlanContents.{plan_contents};
ghost use Rattle.given_plans.specs.Sources.{DueFor, GiveThePlan, HaltsAtTexts, ReadsTexts, ReadsUpTo, bytes_of};
ghost use Rattle.given_runs.specs.Due.{CheckedPlan};
ghost use Rattle.given_runs.specs.Written.{Wrote, StopsWriting};
ghost use Rattle.report.specs.Checks.{Judges};
ghost use Rattle.run_parts.specs.Runs.{Reports, Stops};
ghost use Rattle.run_parts.specs.declared.errors.RunError.TheVariants.{NoMemory};
ghost use Rattle.verdicts.specs.Faults.{AreFaults, fault_list};

use given_plans::{GivenPlan, Halted, Provenance, find_among};
use report::{check_found, check_report, status_of};
use run_parts::{Input, Output, RunError, Status, write_lines};
use std::alloc::Global;
use std::thread::Threads;
use verdicts::{Checked, Gate, MOST_WORKERS};

/// A plan that was checked, and what it was read from.
#[derive(Drop)]
pub struct GivenCheck {
    pub checked: Checked,
    pub provenance: Provenance,
}

/// Checks the plan that these readers give, with so many workers, as `report::check_plan` does.
///
/// # Errors
///
/// `Workers` for 0 and for more than 8 workers, before the first read. Then `Read` where a reader failed or gave no end, and
/// `Plan` with the first refusal of a text. `NoMemory` where an allocation fails.
pub fn find_checked<R: Threads + Sync, I: Input, G: Gate + Sync>(
    rt: &R,
    alloc: Global,
    readers: &mut [I],
    workers: u32,
    gate: &G,
) -> Result<GivenCheck, Halted>
    ensures read { IfOk result (λ it.
        ReadsTexts I.reader readers.old (bytes_of it.provenance.texts.items) readers.new) }
    ensures given { IfOk result (λ it.
        GiveThePlan (bytes_of it.provenance.texts.items) (plan_contents it.checked.plan)) }
    ensures faults { IfOk result (λ it.
        AreFaults (plan_contents it.checked.plan) (fault_list it.checked.faults)) }
    ensures stops { (1 ≤ workers) × (workers ≤ MOST_WORKERS) → IfErr result (λ e.
        HaltsAtTexts I.reader readers.old e.error readers.new) }
    ensures text { IfErr result (λ e. IfSome e.text (λ it.
        ReadsUpTo I.reader readers.old (bytes_of it.before.items) it.text.items readers.new)) }
    ensures workers { (workers < 1) ⊎ (MOST_WORKERS < workers) →
        IsErrAnd result (λ e. e.error ≡ RunError.Workers) × (readers.new ≡ readers.old) }
{
    if workers < 1 || MOST_WORKERS < workers {
        return Err(Halted::from(RunError::Workers));
    }
    match find_among(alloc, readers) {
        Ok(given) => check_plan(rt, alloc, given, workers, gate),
        Err(halted) => Err(halted),
    }
}

// The same of a plan that was found.
fn check_plan<R: Threads + Sync, G: Gate + Sync>(
    rt: &R,
    alloc: Global,
    given: GivenPlan,
    workers: u32,
    gate: &G,
) -> Result<GivenCheck, Halted>
    requires some { 1 ≤ workers }
    requires few { workers ≤ MOST_WORKERS }
    ensures plan { IfOk result (λ it. plan_contents it.checked.plan ≡ plan_contents given.plan) }
    ensures provenance { IfOk result (λ it. it.provenance ≡ given.provenance) }
    ensures faults { IfOk result (λ it.
        AreFaults (plan_contents it.checked.plan) (fault_list it.checked.faults)) }
    ensures error { IfErr result (λ e. e.error ≡ NoMemory) }
    ensures no_text { IfErr result (λ e. IfSome e.text (λ it. ⊥)) }
{
    let GivenPlan { plan, provenance } = given;
    match check_found(rt, alloc, plan, workers, gate) {
        Ok(checked) => Ok(GivenCheck {
            checked,
            provenance,
        }),
        Err(error) => Err(Halted::from(error)),
    }
}

/// The same, and writes the verdicts of its unsafe pairs and their number: the exact report of `check`, which is complete before
/// its first byte is written.
///
/// # Errors
///
/// Those of `find_checked`, and then `Write` where the writer failed or took no bytes: it has then taken the first bytes of the
/// report. After every other error the writer was not called.
pub fn check_given<R: Threads + Sync, I: Input, O: Output, G: Gate + Sync>(
    rt: &R,
    alloc: Global,
    readers: &mut [I],
    out: &mut O,
    workers: u32,
    gate: &G,
) -> Result<(GivenCheck, Status), Halted>
    ensures report { IfOk result (λ it.
        Reports (ReadsTexts I.reader) (DueFor CheckedPlan) O.writer readers.old out.old it.1 readers.new out.new) }
    ensures read { IfOk result (λ it.
        ReadsTexts I.reader readers.old (bytes_of it.0.provenance.texts.items) readers.new) }
    ensures given { IfOk result (λ it.
        GiveThePlan (bytes_of it.0.provenance.texts.items) (plan_contents it.0.checked.plan)) }
    ensures faults { IfOk result (λ it.
        AreFaults (plan_contents it.0.checked.plan) (fault_list it.0.checked.faults)) }
    ensures judged { IfOk result (λ it. Judges it.1 (plan_contents it.0.checked.plan)) }
    ensures stops { (1 ≤ workers) × (workers ≤ MOST_WORKERS) → IfErr result (λ e.
        Stops (ReadsTexts I.reader) (DueFor CheckedPlan) O.writer (HaltsAtTexts I.reader)
        readers.old out.old e.error readers.new out.new) }
    ensures text { IfErr result (λ e. IfSome e.text (λ it.
        ReadsUpTo I.reader readers.old (bytes_of it.before.items) it.text.items readers.new)) }
    ensures workers { (workers < 1) ⊎ (MOST_WORKERS < workers) →
        IsErrAnd result (λ e. e.error ≡ RunError.Workers) × (readers.new ≡ readers.old) × (out.new ≡ out.old) }
{
    match find_checked(rt, alloc, readers, workers, gate) {
        Ok(found) => write_found(alloc, found, out),
        Err(halted) => Err(halted),
    }
}

// Writes the exact report of a check that was made.
fn write_found<O: Output>(
    alloc: Global,
    found: GivenCheck,
    out: &mut O,
) -> Result<(GivenCheck, Status), Halted>
    requires { AreFaults (plan_contents found.checked.plan) (fault_list found.checked.faults) }
    ensures found { IfOk result (λ it. it.0 ≡ found) }
    ensures judged { IfOk result (λ it. Judges it.1 (plan_contents found.checked.plan)) }
    ensures wrote { IfOk result (λ it.
        Wrote (CheckedPlan (plan_contents found.checked.plan)) O.writer out.old it.1 out.new) }
    ensures stops { IfErr result (λ e.
        StopsWriting (CheckedPlan (plan_contents found.checked.plan)) O.writer out.old e.error out.new) }
    ensures no_text { IfErr result (λ e. IfSome e.text (λ it. ⊥)) }
{
    match write_checked(alloc, &found.checked, out) {
        Ok(status) => Ok((found, status)),
        Err(error) => Err(Halted::from(error)),
    }
}

// Writes the exact report of a check.
fn write_checked<O: Output>(
    alloc: Global,
    checked: &Checked,
    out: &mut O,
) -> Result<Status, RunError>
    requires { AreFaults (plan_contents checked.now.plan) (fault_list checked.now.faults) }
    ensures judged { IfOk result (λ status. Judges status (plan_contents checked.now.plan)) }
    ensures wrote { IfOk result (λ status.
        Wrote (CheckedPlan (plan_contents checked.now.plan)) O.writer out.old status out.new) }
    ensures stops { IfErr result (λ error.
        StopsWriting (CheckedPlan (plan_contents checked.now.plan)) O.writer out.old error out.new) }
{
    let report = check_report(alloc, checked)?;
    write_lines(out, report.as_bytes(), status_of(checked.faults.is_safe()))
}
