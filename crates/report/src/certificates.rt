// The runs that write a certificate.

ghost use Rattle.std.specs.Prelude.{◌≡◌, ◌⊎◌, IfOk, IfErr};
ghost use Rattle.plan_core.specs.PlanContents.{plan_contents};
ghost use Rattle.report.specs.Certificates.{Certified, Certifies, StopsCertifying};
ghost use Rattle.run_parts.specs.Devices.{by_parts};
ghost use Rattle.run_parts.specs.PlanTexts.{RefusesPlan};
ghost use Rattle.run_parts.specs.Runs.{ReadsText, HaltsAtText, Reports, Stops};
ghost use Rattle.run_parts.specs.declared.errors.RunError.TheVariants.{NoMemory};

use crate::blocks::{BLOCK, write_in_blocks};
use crate::checks::status_of;
use plan_core::Plan;
use plan_text::read_plan;
use run_parts::devices::reading::READS;
use run_parts::{Input, Output, RunError, Status, read_within};
use std::alloc::Global;
use verdicts::{certificate_lines, faults};

/// Writes the certificate of the plan that the reader gives: the proofs of all pairs where the plan is safe, and else
/// the first fault of the first pair that has one. The status is `Good` or `Bad`. A line that stands in it many times
/// is held once, and the writer is given it in blocks, a part of what is left in each call.
///
/// # Errors
///
/// `Read` where the reader failed or gave no end, `Plan` with the first refusal of the plan text, and `Write` where the
/// writer failed or took no bytes. `NoMemory` where an allocation fails. Only after `Write` has a part of the
/// certificate been written: its first bytes. After every other error the writer was not called.
pub fn run_certify<I: Input, O: Output>(
    alloc: Global,
    plan: &mut I,
    out: &mut O,
) -> Result<Status, RunError>
    ensures report { IfOk result (λ status.
        Reports (ReadsText I.reader) Certified (by_parts O.writer) plan.old out.old status plan.new out.new) }
    ensures stops { IfErr result (λ error.
        Stops (ReadsText I.reader) Certified (by_parts O.writer) (HaltsAtText I.reader RefusesPlan)
        plan.old out.old error plan.new out.new) }
{
    let text = read_within(alloc, plan, READS)?;
    let plan = read_plan(alloc, text.as_slice())?;
    let faults = faults(alloc, &plan)?;
    let report = certificate_lines(alloc, &plan, &faults)?;
    let status = status_of(faults.is_safe());
    let mut block = Vec::with_capacity(alloc, BLOCK)?;
    write_in_blocks(out, &mut block, &report)?;
    Ok(status)
}

/// The same of a plan that was found.
///
/// # Errors
///
/// `Write` where the writer failed or took no bytes, and `NoMemory` where an allocation fails. Only after `Write` has a part
/// of the certificate been written: its first bytes.
pub fn certify_found<O: Output>(alloc: Global, plan: &Plan, out: &mut O) -> Result<Status, RunError>
    ensures report { IfOk result (λ status. Certifies (plan_contents plan.now) O.writer out.old status out.new) }
    ensures stops { IfErr result (λ error. ((error ≡ NoMemory) × (out.new ≡ out.old))
        ⊎ StopsCertifying (plan_contents plan.now) O.writer out.old error out.new) }
{
    let faults = faults(alloc, plan)?;
    let report = certificate_lines(alloc, plan, &faults)?;
    let status = status_of(faults.is_safe());
    let mut block = Vec::with_capacity(alloc, BLOCK)?;
    write_in_blocks(out, &mut block, &report)?;
    Ok(status)
}
