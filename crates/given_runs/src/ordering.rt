// The run that says who wins arbitration.

ghost use Rattle.std.specs.Prelude.{◌≡◌, IfOk, IfErr, IfSome};
ghost use Rattle.plan_core.specs.PlanContents.{plan_contents};
ghost use Rattle.given_plans.specs.Sources.{DueFor, GiveThePlan, HaltsAtTexts, ReadsTexts, ReadsUpTo, bytes_of};
ghost use Rattle.given_runs.specs.Due.{OrderedPlan};
ghost use Rattle.given_runs.specs.Written.{Wrote, StopsWriting};
ghost use Rattle.order.specs.Orders.{IsOrder};
ghost use Rattle.report.specs.Checks.{Judges};
ghost use Rattle.run_parts.specs.Runs.{Reports, Stops};
ghost use Rattle.run_parts.specs.declared.errors.RunError.TheVariants.{NoMemory};
ghost use Rattle.verdicts.specs.Faults.{AreFaults, fault_list};

use crate::checking::{GivenCheck, find_checked};
use given_plans::Halted;
use order::{Order, order_of, order_report};
use plan_core::Plan;
use report::status_of;
use run_parts::{Input, Output, RunError, Status, write_lines};
use std::alloc::Global;
use std::thread::Threads;
use verdicts::NoGate;

/// A plan that was checked, and who wins its pairs.
#[derive(Drop)]
pub struct GivenOrder {
    pub found: GivenCheck,
    pub order: Order,
}

/// Who wins arbitration in each pair of the plan that these readers give.
///
/// # Errors
///
/// `Read` where a reader failed or gave no end, and `Plan` with the first refusal of a text. `NoMemory` where an allocation
/// fails.
pub fn find_ordered<R: Threads + Sync, I: Input>(
    rt: &R,
    alloc: Global,
    readers: &mut [I],
) -> Result<GivenOrder, Halted>
    ensures read { IfOk result (λ it.
        ReadsTexts I.reader readers.old (bytes_of it.found.provenance.texts.items) readers.new) }
    ensures given { IfOk result (λ it.
        GiveThePlan (bytes_of it.found.provenance.texts.items) (plan_contents it.found.checked.plan)) }
    ensures faults { IfOk result (λ it.
        AreFaults (plan_contents it.found.checked.plan) (fault_list it.found.checked.faults)) }
    ensures order { IfOk result (λ it. IsOrder (plan_contents it.found.checked.plan) it.order) }
    ensures stops { IfErr result (λ e. HaltsAtTexts I.reader readers.old e.error readers.new) }
    ensures text { IfErr result (λ e. IfSome e.text (λ it.
        ReadsUpTo I.reader readers.old (bytes_of it.before.items) it.text.items readers.new)) }
{
    match find_checked(rt, alloc, readers, 1, &NoGate) {
        Ok(found) => order_found(alloc, found),
        Err(halted) => Err(halted),
    }
}

// The same of a plan that was checked.
fn order_found(alloc: Global, found: GivenCheck) -> Result<GivenOrder, Halted>
    requires { AreFaults (plan_contents found.checked.plan) (fault_list found.checked.faults) }
    ensures found { IfOk result (λ it. it.found ≡ found) }
    ensures order { IfOk result (λ it. IsOrder (plan_contents found.checked.plan) it.order) }
    ensures error { IfErr result (λ e. e.error ≡ NoMemory) }
    ensures no_text { IfErr result (λ e. IfSome e.text (λ it. ⊥)) }
{
    match order_of(alloc, &found.checked.plan, &found.checked.faults) {
        Ok(order) => Ok(GivenOrder { found, order }),
        Err(error) => Err(Halted::from(error)),
    }
}

/// The same, and writes the lines of that: the exact report of `order`, which is complete before its first byte is written.
///
/// # Errors
///
/// Those of `find_ordered`, and then `Write` where the writer failed or took no bytes: it has then taken the first bytes of the
/// report. After every other error the writer was not called.
pub fn order_given<R: Threads + Sync, I: Input, O: Output>(
    rt: &R,
    alloc: Global,
    readers: &mut [I],
    out: &mut O,
) -> Result<Status, Halted>
    ensures report { IfOk result (λ status.
        Reports (ReadsTexts I.reader) (DueFor OrderedPlan) O.writer readers.old out.old status readers.new out.new) }
    ensures stops { IfErr result (λ e.
        Stops (ReadsTexts I.reader) (DueFor OrderedPlan) O.writer (HaltsAtTexts I.reader)
        readers.old out.old e.error readers.new out.new) }
    ensures text { IfErr result (λ e. IfSome e.text (λ it.
        ReadsUpTo I.reader readers.old (bytes_of it.before.items) it.text.items readers.new)) }
{
    match find_ordered(rt, alloc, readers) {
        Ok(it) => {
            let GivenCheck { checked, .. } = &it.found;
            let status = status_of(checked.faults.is_safe());
            write_order(alloc, &checked.plan, &it.order, status, out)
        }
        Err(halted) => Err(halted),
    }
}

// Writes the lines of who wins, with this status.
fn write_order<O: Output>(
    alloc: Global,
    plan: &Plan,
    order: &Order,
    status: Status,
    out: &mut O,
) -> Result<Status, Halted>
    requires order { IsOrder (plan_contents plan.now) order.now }
    requires judged { Judges status (plan_contents plan.now) }
    ensures wrote { IfOk result (λ it.
        Wrote (OrderedPlan (plan_contents plan.now)) O.writer out.old it out.new) }
    ensures stops { IfErr result (λ e.
        StopsWriting (OrderedPlan (plan_contents plan.now)) O.writer out.old e.error out.new) }
    ensures no_text { IfErr result (λ e. IfSome e.text (λ it. ⊥)) }
{
    match order_lines(alloc, plan, order, status, out) {
        Ok(status) => Ok(status),
        Err(error) => Err(Halted::from(error)),
    }
}

fn order_lines<O: Output>(
    alloc: Global,
    plan: &Plan,
    order: &Order,
    status: Status,
    out: &mut O,
) -> Result<Status, RunError>
    requires order { IsOrder (plan_contents plan.now) order.now }
    requires judged { Judges status (plan_contents plan.now) }
    ensures wrote { IfOk result (λ it.
        Wrote (OrderedPlan (plan_contents plan.now)) O.writer out.old it out.new) }
    ensures stops { IfErr result (λ error.
        StopsWriting (OrderedPlan (plan_contents plan.now)) O.writer out.old error out.new) }
{
    let report = order_report(alloc, plan, order)?;
    write_lines(out, report.as_bytes(), status)
}
