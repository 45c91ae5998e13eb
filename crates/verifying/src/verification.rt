// The runs that check a certificate.

ghost use Rattle.std.specs.Prelude.{◌≡◌, ℕ, List, IfOk, IfErr};
ghost use Rattle.cert_check.specs.Accepts.{IsAnswer};
ghost use Rattle.plan_core.specs.PlanContents.{plan_contents};
ghost use Rattle.run_parts.specs.Finding.{Finds};
ghost use Rattle.run_parts.specs.PlanTexts.{RefusesPlan, SpellsPlan};
ghost use Rattle.run_parts.specs.Runs.{ReadsText, ReadsBoth, HaltsAtBoth, Reports, Stops};
ghost use Rattle.verifying.specs.Answering.{HaltsAtAnswer};
ghost use Rattle.verifying.specs.Verified.{AnswerOf, Verified};

use crate::answering::read_answer;
use crate::answers::{answer_line, status_of_answer};
use crate::finding::find_plan;
use cert_check::{Answered, Judged};
use plan_core::Plan;
use run_parts::{Input, Output, RunError, Status, write_lines};
use std::alloc::Global;

/// Writes what the certificate that the second reader gives says of the plan that the first reader gives: `accepted
/// safe`, `accepted unsafe`, or what is wrong with it. The certificate is judged block by block. Of it are kept what is
/// not judged yet, lines that were proved (64 MiB at most), and all that comes from a line on that is refused. The
/// status is `Good`, `Bad` or `Refused`.
///
/// # Errors
///
/// `Read` where a reader failed or gave no end, `Plan` with the first refusal of the plan text, before the second
/// reader is called, and `Write` where the writer failed or took no bytes. `NoMemory` where an allocation fails. Only
/// after `Write` has a part of the line been written: its first bytes. After every other error the writer was not
/// called.
pub fn run_verify<I: Input, J: Input, O: Output>(
    alloc: Global,
    plan: &mut I,
    cert: &mut J,
    out: &mut O,
) -> Result<Status, RunError>
    ensures report { IfOk result (λ status.
        Reports (ReadsBoth I.reader J.reader) Verified O.writer
        (plan.old, cert.old) out.old status (plan.new, cert.new) out.new) }
    ensures stops { IfErr result (λ error.
        Stops (ReadsBoth I.reader J.reader) Verified O.writer (HaltsAtBoth I.reader J.reader RefusesPlan SpellsPlan)
        (plan.old, cert.old) out.old error (plan.new, cert.new) out.new) }
{
    let found = verify_plan(alloc, plan, cert)?;
    let report = answer_line(alloc, found.answer)?;
    write_lines(out, report.as_bytes(), status_of_answer(found.answer))
}

/// What the certificate that the second reader gives says of the plan that the first reader gives, and where it is refused.
/// It is judged block by block.
///
/// # Errors
///
/// `Read` where a reader failed or gave no end, and `Plan` with the first refusal of the plan text, before the second reader
/// is called. `NoMemory` where an allocation fails.
pub fn verify_plan<I: Input, J: Input>(
    alloc: Global,
    plan: &mut I,
    cert: &mut J,
) -> Result<Answered, RunError>
    ensures found { IfOk result (λ it.
        Finds (ReadsBoth I.reader J.reader) AnswerOf (plan.old, cert.old) it (plan.new, cert.new)) }
    ensures stops { IfErr result (λ error.
        HaltsAtBoth I.reader J.reader RefusesPlan SpellsPlan (plan.old, cert.old) error (plan.new, cert.new)) }
{
    let plan = find_plan(alloc, plan)?;
    let judged = read_answer(alloc, &plan, cert)?;
    Ok(answered(plan, judged))
}

/// The same of a plan that was found.
///
/// # Errors
///
/// `Read` where the reader failed or gave no end. `NoMemory` where an allocation fails.
pub fn verify_found<J: Input>(alloc: Global, plan: Plan, cert: &mut J) -> Result<Answered, RunError>
    ensures plan { IfOk result (λ it. plan_contents it.plan ≡ plan_contents plan) }
    ensures answer { IfOk result (λ it. (text : List ℕ) × ReadsText J.reader cert.old text cert.new
        × IsAnswer (plan_contents plan) text it.answer) }
    ensures stops { IfErr result (λ error. HaltsAtAnswer J.reader cert.old error cert.new) }
{
    let judged = read_answer(alloc, &plan, cert)?;
    Ok(answered(plan, judged))
}

// The answer for this plan.
fn answered(plan: Plan, judged: Judged) -> Answered
    ensures plan { result.plan ≡ plan }
    ensures answer { result.answer ≡ judged.answer }
{
    let Judged { answer, refusal } = judged;
    Answered {
        plan,
        answer,
        refusal,
    }
}
