// The run that checks a certificate.

ghost use Rattle.std.specs.Prelude.{IfOk, IfErr, IfSome, ℕ, List, ◌≡◌};
ghost use Rattle.cert_check.specs.Accepts.{IsAnswer};
ghost use Rattle.plan_core.specs.PlanContents.{plan_contents};
ghost use Rattle.given_plans.specs.Sources.{GiveThePlan, ReadsTexts, ReadsUpTo, bytes_of};
ghost use Rattle.given_runs.specs.Due.{AnsweredPlan};
ghost use Rattle.given_runs.specs.Inputs.{DueForBoth, HaltsAtEither, ReadsTextsAndOne};
ghost use Rattle.given_runs.specs.Written.{IsOfAnswer, Wrote, StopsWriting};
ghost use Rattle.run_parts.specs.Runs.{ReadsText, Reports, Stops};
ghost use Rattle.verifying.specs.Answering.{HaltsAtAnswer};
ghost use Rattle.verifying.specs.Answers.{answer_status};

use cert_check::Answered;
use given_plans::{GivenPlan, Halted, Provenance, find_among};
use run_parts::{Input, Output, RunError, Status, write_lines};
use std::alloc::Global;
use verifying::{Answer, answer_line, status_of_answer, verify_found};

/// The answer to a certificate of a plan, and what the plan was read from.
#[derive(Drop)]
pub struct GivenAnswer {
    pub answered: Answered,
    pub provenance: Provenance,
}

/// What the certificate that the second reader gives says of the plan that the first ones give, and where it is refused. It is
/// judged block by block.
///
/// # Errors
///
/// `Read` where a reader failed or gave no end, and `Plan` with the first refusal of a text, before the second reader is called.
/// `NoMemory` where an allocation fails.
pub fn find_answered<I: Input, J: Input>(
    alloc: Global,
    readers: &mut [I],
    cert: &mut J,
) -> Result<GivenAnswer, Halted>
    ensures read { IfOk result (λ it.
        ReadsTexts I.reader readers.old (bytes_of it.provenance.texts.items) readers.new) }
    ensures given { IfOk result (λ it.
        GiveThePlan (bytes_of it.provenance.texts.items) (plan_contents it.answered.plan)) }
    ensures answer { IfOk result (λ it. (text : List ℕ) × ReadsText J.reader cert.old text cert.new
        × IsAnswer (plan_contents it.answered.plan) text it.answered.answer) }
    ensures stops { IfErr result (λ e.
        HaltsAtEither I.reader J.reader (λ plan. HaltsAtAnswer J.reader) (readers.old, cert.old) e.error (readers.new, cert.new)) }
    ensures text { IfErr result (λ e. IfSome e.text (λ it.
        ReadsUpTo I.reader readers.old (bytes_of it.before.items) it.text.items readers.new)) }
{
    match find_among(alloc, readers) {
        Ok(given) => answer_plan(alloc, given, cert),
        Err(halted) => Err(halted),
    }
}

// The same of a plan that was found.
fn answer_plan<J: Input>(
    alloc: Global,
    given: GivenPlan,
    cert: &mut J,
) -> Result<GivenAnswer, Halted>
    ensures plan { IfOk result (λ it. plan_contents it.answered.plan ≡ plan_contents given.plan) }
    ensures provenance { IfOk result (λ it. it.provenance ≡ given.provenance) }
    ensures answer { IfOk result (λ it. (text : List ℕ) × ReadsText J.reader cert.old text cert.new
        × IsAnswer (plan_contents given.plan) text it.answered.answer) }
    ensures stops { IfErr result (λ e. HaltsAtAnswer J.reader cert.old e.error cert.new) }
    ensures no_text { IfErr result (λ e. IfSome e.text (λ it. ⊥)) }
{
    let GivenPlan { plan, provenance } = given;
    match verify_found(alloc, plan, cert) {
        Ok(answered) => Ok(GivenAnswer {
            answered,
            provenance,
        }),
        Err(error) => Err(Halted::from(error)),
    }
}

/// The same, and writes the line of the answer: the exact report of `verify`. The status is `Good`, `Bad` or `Refused`.
///
/// # Errors
///
/// Those of `find_answered`, and then `Write` where the writer failed or took no bytes: it has then taken the first bytes of the
/// line. After every other error the writer was not called.
pub fn verify_given<I: Input, J: Input, O: Output>(
    alloc: Global,
    readers: &mut [I],
    cert: &mut J,
    out: &mut O,
) -> Result<(GivenAnswer, Status), Halted>
    ensures report { IfOk result (λ it.
        Reports (ReadsTextsAndOne I.reader J.reader) (DueForBoth AnsweredPlan) O.writer
        (readers.old, cert.old) out.old it.1 (readers.new, cert.new) out.new) }
    ensures status { IfOk result (λ it. it.1 ≡ answer_status it.0.answered.answer) }
    ensures stops { IfErr result (λ e.
        Stops (ReadsTextsAndOne I.reader J.reader) (DueForBoth AnsweredPlan) O.writer
        (HaltsAtEither I.reader J.reader (λ plan. HaltsAtAnswer J.reader))
        (readers.old, cert.old) out.old e.error (readers.new, cert.new) out.new) }
    ensures text { IfErr result (λ e. IfSome e.text (λ it.
        ReadsUpTo I.reader readers.old (bytes_of it.before.items) it.text.items readers.new)) }
{
    match find_answered(alloc, readers, cert) {
        Ok(found) => write_found(alloc, found, out),
        Err(halted) => Err(halted),
    }
}

// Writes the line of an answer that was found.
fn write_found<O: Output>(
    alloc: Global,
    found: GivenAnswer,
    out: &mut O,
) -> Result<(GivenAnswer, Status), Halted>
    ensures status { IfOk result (λ it. it.1 ≡ answer_status found.answered.answer) }
    ensures found { IfOk result (λ it. it.0 ≡ found) }
    ensures wrote { IfOk result (λ it.
        Wrote (IsOfAnswer found.answered.answer) O.writer out.old it.1 out.new) }
    ensures stops { IfErr result (λ e.
        StopsWriting (IsOfAnswer found.answered.answer) O.writer out.old e.error out.new) }
    ensures no_text { IfErr result (λ e. IfSome e.text (λ it. ⊥)) }
{
    match write_answer(alloc, found.answered.answer, out) {
        Ok(status) => Ok((found, status)),
        Err(error) => Err(Halted::from(error)),
    }
}

// Writes the line of an answer.
fn write_answer<O: Output>(alloc: Global, answer: Answer, out: &mut O) -> Result<Status, RunError>
    ensures status { IfOk result (λ status. status ≡ answer_status answer) }
    ensures wrote { IfOk result (λ status.
        Wrote (IsOfAnswer answer) O.writer out.old status out.new) }
    ensures stops { IfErr result (λ error.
        StopsWriting (IsOfAnswer answer) O.writer out.old error out.new) }
{
    let line = answer_line(alloc, answer)?;
    write_lines(out, line.as_bytes(), status_of_answer(answer))
}
