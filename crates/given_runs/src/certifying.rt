// The run that writes a certificate.

ghost use Rattle.std.specs.Prelude.{IfOk, IfErr, IfSome};
ghost use Rattle.plan_core.specs.PlanContents.{plan_contents};
ghost use Rattle.given_plans.specs.Sources.{DueFor, HaltsAtTexts, ReadsTexts, ReadsUpTo, bytes_of};
ghost use Rattle.given_runs.specs.Due.{CertifiedPlan};
ghost use Rattle.given_runs.specs.Written.{Wrote, StopsWriting};
ghost use Rattle.run_parts.specs.Devices.{by_parts};
ghost use Rattle.run_parts.specs.Runs.{Reports, Stops};

use given_plans::{Halted, find_among};
use plan_core::Plan;
use report::certify_found;
use run_parts::{Input, Output, Status};
use std::alloc::Global;

/// Writes the certificate of the plan that these readers give, as `report::run_certify` does for one plan text.
///
/// # Errors
///
/// `Read` where a reader failed or gave no end, `Plan` with the first refusal of a text, and `Write` where the writer failed or
/// took no bytes. `NoMemory` where an allocation fails. Only after `Write` has a part of the certificate been written: its first
/// bytes. After every other error the writer was not called.
pub fn certify_given<I: Input, O: Output>(
    alloc: Global,
    readers: &mut [I],
    out: &mut O,
) -> Result<Status, Halted>
    ensures report { IfOk result (λ status.
        Reports (ReadsTexts I.reader) (DueFor CertifiedPlan) (by_parts O.writer)
        readers.old out.old status readers.new out.new) }
    ensures stops { IfErr result (λ e.
        Stops (ReadsTexts I.reader) (DueFor CertifiedPlan) (by_parts O.writer) (HaltsAtTexts I.reader)
        readers.old out.old e.error readers.new out.new) }
    ensures text { IfErr result (λ e. IfSome e.text (λ it.
        ReadsUpTo I.reader readers.old (bytes_of it.before.items) it.text.items readers.new)) }
{
    match find_among(alloc, readers) {
        Ok(found) => certify_plan(alloc, &found.plan, out),
        Err(halted) => Err(halted),
    }
}

// Writes the certificate of a plan that was found.
fn certify_plan<O: Output>(alloc: Global, plan: &Plan, out: &mut O) -> Result<Status, Halted>
    ensures wrote { IfOk result (λ status.
        Wrote (CertifiedPlan (plan_contents plan.now)) (by_parts O.writer) out.old status out.new) }
    ensures stops { IfErr result (λ e.
        StopsWriting (CertifiedPlan (plan_contents plan.now)) (by_parts O.writer) out.old e.error out.new) }
    ensures no_text { IfErr result (λ e. IfSome e.text (λ it. ⊥)) }
{
    match certify_found(alloc, plan, out) {
        Ok(status) => Ok(status),
        Err(error) => Err(Halted::from(error)),
    }
}
