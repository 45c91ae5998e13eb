// The runs that write a plan or a brief in another spelling.

ghost use Rattle.std.specs.Prelude.{◌≡◌, ◌⊎◌, IfOk, OnOk, IfErr};
ghost use Rattle.plan_core.specs.PlanContents.{plan_contents};
ghost use Rattle.spellings.specs.Canonical.{plan_text};
ghost use Rattle.spellings.specs.Spellings.{Printed, Expanded, Abbreviated, RefusesBrief, GivesNoBrief};
ghost use Rattle.run_parts.specs.PlanTexts.{RefusesPlan};
ghost use Rattle.run_parts.specs.Runs.{ReadsText, HaltsAtText, Reports, Stops};
ghost use Rattle.run_parts.specs.Writing.{WritesAll, WritingStops};
ghost use Rattle.run_parts.specs.declared.errors.RunError.TheVariants.{NoMemory};
ghost use Rattle.run_parts.specs.declared.runs.Status.TheVariants.{Good};

use crate::print::print_plan;
use crate::writing::brief_of;
use brief_text::expand_brief;
use plan_core::Plan;
use plan_text::read_plan;
use run_parts::devices::reading::READS;
use run_parts::{Input, Output, RunError, Status, read_within, write_lines};
use std::alloc::Global;

/// Writes the canonical spelling of the plan that the reader gives. Reading it gives the same plan. The status is
/// `Good`.
///
/// # Errors
///
/// `Read` where the reader failed or gave no end, `Plan` with the first refusal of the plan text, and `Write` where the
/// writer failed or took no bytes. `NoMemory` where an allocation fails. Only after `Write` has a part of the spelling
/// been written: its first bytes. After every other error the writer was not called.
pub fn run_print<I: Input, O: Output>(
    alloc: Global,
    plan: &mut I,
    out: &mut O,
) -> Result<Status, RunError>
    ensures report { IfOk result (λ status.
        Reports (ReadsText I.reader) Printed O.writer plan.old out.old status plan.new out.new) }
    ensures stops { IfErr result (λ error.
        Stops (ReadsText I.reader) Printed O.writer (HaltsAtText I.reader RefusesPlan)
        plan.old out.old error plan.new out.new) }
{
    let text = read_within(alloc, plan, READS)?;
    let plan = read_plan(alloc, text.as_slice())?;
    print_found(alloc, &plan, out)
}

/// The same of a plan that was found.
///
/// # Errors
///
/// `Write` where the writer failed or took no bytes, and `NoMemory` where an allocation fails. Only after `Write` has a part
/// of the spelling been written: its first bytes.
pub fn print_found<O: Output>(alloc: Global, plan: &Plan, out: &mut O) -> Result<Status, RunError>
    ensures status { IfOk result (λ status. status ≡ Good) }
    ensures written { OnOk result (WritesAll O.writer out.old (plan_text (plan_contents plan.now)) out.new) }
    ensures stops { IfErr result (λ error. ((error ≡ NoMemory) × (out.new ≡ out.old))
        ⊎ WritingStops O.writer out.old (plan_text (plan_contents plan.now)) error out.new) }
{
    let report = print_plan(alloc, plan)?;
    write_lines(out, report.as_slice(), Status::Good)
}

/// Writes the canonical spelling of the plan that the brief means which the reader gives. The status is `Good`.
///
/// # Errors
///
/// `Read` where the reader failed or gave no end, `Plan` with the first refusal of the brief, and `Write` where the
/// writer failed or took no bytes. `NoMemory` where an allocation fails. Only after `Write` has a part of the spelling
/// been written: its first bytes. After every other error the writer was not called.
pub fn run_expand<I: Input, O: Output>(
    alloc: Global,
    brief: &mut I,
    out: &mut O,
) -> Result<Status, RunError>
    ensures report { IfOk result (λ status.
        Reports (ReadsText I.reader) Expanded O.writer brief.old out.old status brief.new out.new) }
    ensures stops { IfErr result (λ error.
        Stops (ReadsText I.reader) Expanded O.writer (HaltsAtText I.reader RefusesBrief)
        brief.old out.old error brief.new out.new) }
{
    let text = read_within(alloc, brief, READS)?;
    let plan = expand_brief(alloc, text.as_slice())?;
    print_found(alloc, &plan, out)
}

/// Writes a brief of the plan that the reader gives. Expanded, it means the same plan. The status is `Good`.
///
/// # Errors
///
/// `Read` where the reader failed or gave no end, `Plan` with the first refusal of the plan text, `Brief` where the
/// plan has no brief, and `Write` where the writer failed or took no bytes. `NoMemory` where an allocation fails. Only
/// after `Write` has a part of the brief been written: its first bytes. After every other error the writer was not
/// called.
pub fn run_brief<I: Input, O: Output>(
    alloc: Global,
    plan: &mut I,
    out: &mut O,
) -> Result<Status, RunError>
    ensures report { IfOk result (λ status.
        Reports (ReadsText I.reader) Abbreviated O.writer plan.old out.old status plan.new out.new) }
    ensures stops { IfErr result (λ error.
        Stops (ReadsText I.reader) Abbreviated O.writer (HaltsAtText I.reader GivesNoBrief)
        plan.old out.old error plan.new out.new) }
{
    let text = read_within(alloc, plan, READS)?;
    let plan = read_plan(alloc, text.as_slice())?;
    let report = brief_of(alloc, &plan)?;
    write_lines(out, report.as_slice(), Status::Good)
}
