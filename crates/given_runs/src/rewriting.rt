// The runs that write a plan in its canonical spelling.

ghost use Rattle.std.specs.Prelude.{IfOk, IfErr, IfSome};
ghost use Rattle.plan_core.specs.PlanContents.{plan_contents};
ghost use Rattle.given_plans.specs.Sources.{DueFor, DueForBriefs, HaltsAtBriefs, HaltsAtTexts, ReadsTexts, ReadsUpTo, bytes_of};
ghost use Rattle.given_runs.specs.Due.{PrintedPlan};
ghost use Rattle.given_runs.specs.Written.{Wrote, StopsWriting};
ghost use Rattle.run_parts.specs.Runs.{Reports, Stops};

use given_plans::{Halted, find_among, find_in_briefs};
use plan_core::Plan;
use run_parts::{Input, Output, Status};
use spellings::print_found;
use std::alloc::Global;

/// Writes the canonical spelling of the plan that these readers give. Reading it gives the same plan. The status is `Good`.
///
/// # Errors
///
/// `Read` where a reader failed or gave no end, `Plan` with the first refusal of a text, and `Write` where the writer failed or
/// took no bytes. `NoMemory` where an allocation fails. Only after `Write` has a part of the spelling been written: its first
/// bytes. After every other error the writer was not called.
pub fn print_given<I: Input, O: Output>(
    alloc: Global,
    readers: &mut [I],
    out: &mut O,
) -> Result<Status, Halted>
    ensures report { IfOk result (λ status.
        Reports (ReadsTexts I.reader) (DueFor PrintedPlan) O.writer readers.old out.old status readers.new out.new) }
    ensures stops { IfErr result (λ e.
        Stops (ReadsTexts I.reader) (DueFor PrintedPlan) O.writer (HaltsAtTexts I.reader)
        readers.old out.old e.error readers.new out.new) }
    ensures text { IfErr result (λ e. IfSome e.text (λ it.
        ReadsUpTo I.reader readers.old (bytes_of it.before.items) it.text.items readers.new)) }
{
    match find_among(alloc, readers) {
        Ok(found) => print_plan(alloc, &found.plan, out),
        Err(halted) => Err(halted),
    }
}

/// The same of the plan that briefs mean, also one alone.
///
/// # Errors
///
/// Those of `print_given`, where a plan text is refused as a brief.
pub fn expand_given<I: Input, O: Output>(
    alloc: Global,
    readers: &mut [I],
    out: &mut O,
) -> Result<Status, Halted>
    ensures report { IfOk result (λ status.
        Reports (ReadsTexts I.reader) (DueForBriefs PrintedPlan) O.writer readers.old out.old status readers.new out.new) }
    ensures stops { IfErr result (λ e.
        Stops (ReadsTexts I.reader) (DueForBriefs PrintedPlan) O.writer (HaltsAtBriefs I.reader)
        readers.old out.old e.error readers.new out.new) }
    ensures text { IfErr result (λ e. IfSome e.text (λ it.
        ReadsUpTo I.reader readers.old (bytes_of it.before.items) it.text.items readers.new)) }
{
    match find_in_briefs(alloc, readers) {
        Ok(found) => print_plan(alloc, &found.plan, out),
        Err(halted) => Err(halted),
    }
}

// Writes the canonical spelling of a plan that was found.
fn print_plan<O: Output>(alloc: Global, plan: &Plan, out: &mut O) -> Result<Status, Halted>
    ensures wrote { IfOk result (λ status.
        Wrote (PrintedPlan (plan_contents plan.now)) O.writer out.old status out.new) }
    ensures stops { IfErr result (λ e.
        StopsWriting (PrintedPlan (plan_contents plan.now)) O.writer out.old e.error out.new) }
    ensures no_text { IfErr result (λ e. IfSome e.text (λ it. ⊥)) }
{
    match print_found(alloc, plan, out) {
        Ok(status) => Ok(status),
        Err(error) => Err(Halted::from(error)),
    }
}
