// The runs that rehearse a plan: by a certificate that is given, or by the one that is made of the plan here.

ghost use Rattle.std.specs.Prelude.{◌≡◌, ◌⊎◌, Some, None, IfOk, IfErr, IfSome};
ghost use Rattle.bench_run.specs.Outcomes.{HasWinners, IsOutcomeOf, outcome_status};
ghost use Rattle.bench_run.specs.Rehearsals.{RefusesStarters};
ghost use Rattle.given_plans.specs.Sources.{DueFor, GiveThePlan, ReadsTexts, ReadsUpTo, bytes_of};
ghost use Rattle.given_runs.specs.Due.{RehearsedPlan, SelfRehearsedPlan};
ghost use Rattle.given_runs.specs.Inputs.{DueForBoth, HaltsAtEither, ReadsTextsAndOne};
ghost use Rattle.given_runs.specs.Starting.{HaltsAtOwnStarters, HaltsAtStarters};
ghost use Rattle.given_runs.specs.Written.{IsOfOutcome, LacksBench, StopsWriting, Wrote};
ghost use Rattle.plan_core.specs.Contents.{Contents};
ghost use Rattle.plan_core.specs.Faults.{IsSafe};
ghost use Rattle.plan_core.specs.PlanContents.{plan_contents};
ghost use Rattle.report.specs.Checks.{Judges};
ghost use Rattle.run_parts.specs.Runs.{ReadsText, Reports, Stops};
ghost use Rattle.run_parts.specs.declared.errors.RunError.TheVariants.{NoMemory};
ghost use Rattle.verdicts.specs.Certificates.{IsCertificateText};

use bench_run::{NoGate, Outcome, Unplayed, outcome_report, rehearse, status_of_outcome};
use given_plans::{GivenPlan, Halted, Provenance, find_among};
use plan_core::Plan;
use plays::RefusedStarters;
use run_parts::devices::reading::READS;
use run_parts::{Input, Output, RunError, Status, read_within, write_lines};
use std::alloc::{AllocError, Global};
use std::sync::Wait;
use std::thread::Threads;
use std::time::Clock;
use verdicts::{certificate_text, faults};

/// What comes of a rehearsal, the certificate that it went by, and what the plan was read from.
#[derive(Drop)]
pub struct GivenOutcome {
    pub outcome: Outcome,
    pub cert: Vec<u8>,
    pub provenance: Provenance,
}

/// Why a rehearsal goes no further. Where its starters are refused: for which of them, and the plan.
#[derive(Drop)]
pub struct Unrehearsed {
    pub halted: Halted,
    pub refused: Option<RefusedStarters>,
    pub given: Option<GivenPlan>,
}

impl From<Halted> for Unrehearsed {
    ghost from_gives = { λ halted e. (e.halted ≡ halted) × (e.given ≡ None) };

    fn from(halted: Halted) -> Unrehearsed {
        Unrehearsed {
            halted,
            refused: None,
            given: None,
        }
    }
}

/// What comes of the plan that the first readers give, and of the certificate that the second one gives, as
/// `bench_run::rehearse` has it.
///
/// # Errors
///
/// `Read` where a reader failed or gave no end, and `Plan` with the first refusal of a text, before the second reader is called.
/// `Bench` with the refusal of the starters of an accepted plan, which is handed back. `NoMemory` where an allocation fails.
pub fn find_rehearsed<R: Threads + Wait + Clock + Sync, I: Input, J: Input>(
    rt: &R,
    alloc: Global,
    readers: &mut [I],
    cert: &mut J,
    starters: &str,
    fill: bool,
    answers: &[bool],
) -> Result<GivenOutcome, Unrehearsed>
    ensures read { IfOk result (λ it.
        ReadsTexts I.reader readers.old (bytes_of it.provenance.texts.items) readers.new) }
    ensures cert { IfOk result (λ it. ReadsText J.reader cert.old it.cert.items cert.new) }
    ensures outcome { IfOk result (λ it. (plan : Contents) × GiveThePlan (bytes_of it.provenance.texts.items) plan
        × IsOutcomeOf plan starters.now answers.now fill it.cert.items it.outcome) }
    ensures winners { IfOk result (λ it. HasWinners it.outcome) }
    ensures stops { IfErr result (λ e.
        HaltsAtEither I.reader J.reader (HaltsAtStarters J.reader starters.now)
        (readers.old, cert.old) e.halted.error (readers.new, cert.new)) }
    ensures text { IfErr result (λ e. IfSome e.halted.text (λ it.
        ReadsUpTo I.reader readers.old (bytes_of it.before.items) it.text.items readers.new)) }
    ensures back { IfErr result (λ e. IfSome e.given (λ it.
        GiveThePlan (bytes_of it.provenance.texts.items) (plan_contents it.plan))) }
{
    match find_among(alloc, readers) {
        Ok(given) => rehearse_by(rt, alloc, given, cert, starters, fill, answers),
        Err(halted) => Err(Unrehearsed::from(halted)),
    }
}

// The same of a plan that was found.
fn rehearse_by<R: Threads + Wait + Clock + Sync, J: Input>(
    rt: &R,
    alloc: Global,
    given: GivenPlan,
    cert: &mut J,
    starters: &str,
    fill: bool,
    answers: &[bool],
) -> Result<GivenOutcome, Unrehearsed>
    ensures provenance { IfOk result (λ it. it.provenance ≡ given.provenance) }
    ensures cert { IfOk result (λ it. ReadsText J.reader cert.old it.cert.items cert.new) }
    ensures outcome { IfOk result (λ it.
        IsOutcomeOf (plan_contents given.plan) starters.now answers.now fill it.cert.items it.outcome) }
    ensures winners { IfOk result (λ it. HasWinners it.outcome) }
    ensures stops { IfErr result (λ e.
        HaltsAtStarters J.reader starters.now (plan_contents given.plan) cert.old e.halted.error cert.new) }
    ensures no_text { IfErr result (λ e. IfSome e.halted.text (λ it. ⊥)) }
    ensures back { IfErr result (λ e. IfSome e.given (λ it. it ≡ given)) }
{
    match read_within(alloc, cert, READS) {
        Ok(text) => rehearse_given(rt, alloc, given, text, starters, fill, answers),
        Err(error) => Err(Unrehearsed::from(Halted::from(error))),
    }
}

// The same with the text of a certificate.
fn rehearse_given<R: Threads + Wait + Clock + Sync>(
    rt: &R,
    alloc: Global,
    given: GivenPlan,
    cert: Vec<u8>,
    starters: &str,
    fill: bool,
    answers: &[bool],
) -> Result<GivenOutcome, Unrehearsed>
    ensures provenance { IfOk result (λ it. it.provenance ≡ given.provenance) }
    ensures cert { IfOk result (λ it. it.cert ≡ cert) }
    ensures outcome { IfOk result (λ it.
        IsOutcomeOf (plan_contents given.plan) starters.now answers.now fill cert.items it.outcome) }
    ensures winners { IfOk result (λ it. HasWinners it.outcome) }
    ensures refused { IfErr result (λ e. LacksBench (plan_contents given.plan) starters.now cert.items e.halted.error) }
    ensures no_text { IfErr result (λ e. IfSome e.halted.text (λ it. ⊥)) }
    ensures back { IfErr result (λ e. IfSome e.given (λ it. it ≡ given)) }
{
    let GivenPlan { plan, provenance } = given;
    match rehearse(
        rt,
        alloc,
        plan,
        cert.as_slice(),
        starters,
        fill,
        answers,
        &NoGate,
    ) {
        Ok(outcome) => Ok(GivenOutcome {
            outcome,
            cert,
            provenance,
        }),
        Err(unplayed) => Err(stopped_by(unplayed, provenance)),
    }
}

// Why it goes no further, with what the plan was read from.
fn stopped_by(unplayed: Unplayed, provenance: Provenance) -> Unrehearsed
    ensures error { result.halted.error ≡ unplayed.error }
    ensures no_text { IfSome result.halted.text (λ it. ⊥) }
    ensures back { IfSome result.given (λ it. (unplayed.plan ≡ Some it.plan) × (it.provenance ≡ provenance)) }
{
    let Unplayed {
        error,
        refused,
        plan,
    } = unplayed;
    Unrehearsed {
        halted: Halted::from(error),
        refused,
        given: given_by(plan, provenance),
    }
}

fn given_by(plan: Option<Plan>, provenance: Provenance) -> Option<GivenPlan>
    ensures { IfSome result (λ it. (plan ≡ Some it.plan) × (it.provenance ≡ provenance)) }
{
    match plan {
        Some(plan) => Some(GivenPlan { plan, provenance }),
        None => None,
    }
}

/// The same, and writes the wire and those who have won, or the line of another answer: the exact report of `bench`, which is
/// complete before its first byte is written.
///
/// # Errors
///
/// Those of `find_rehearsed`, and then `Write` where the writer failed or took no bytes: it has then taken the first bytes of the
/// report. After every other error the writer was not called.
pub fn bench_given<R: Threads + Wait + Clock + Sync, I: Input, J: Input, O: Output>(
    rt: &R,
    alloc: Global,
    readers: &mut [I],
    cert: &mut J,
    out: &mut O,
    starters: &str,
    fill: bool,
    answers: &[bool],
) -> Result<(GivenOutcome, Status), Unrehearsed>
    ensures report { IfOk result (λ it.
        Reports (ReadsTextsAndOne I.reader J.reader) (DueForBoth (RehearsedPlan starters.now answers.now fill)) O.writer
        (readers.old, cert.old) out.old it.1 (readers.new, cert.new) out.new) }
    ensures winners { IfOk result (λ it. HasWinners it.0.outcome) }
    ensures stops { IfErr result (λ e.
        Stops (ReadsTextsAndOne I.reader J.reader) (DueForBoth (RehearsedPlan starters.now answers.now fill)) O.writer
        (HaltsAtEither I.reader J.reader (HaltsAtStarters J.reader starters.now))
        (readers.old, cert.old) out.old e.halted.error (readers.new, cert.new) out.new) }
    ensures text { IfErr result (λ e. IfSome e.halted.text (λ it.
        ReadsUpTo I.reader readers.old (bytes_of it.before.items) it.text.items readers.new)) }
    ensures back { IfErr result (λ e. IfSome e.given (λ it.
        GiveThePlan (bytes_of it.provenance.texts.items) (plan_contents it.plan))) }
{
    match find_rehearsed(rt, alloc, readers, cert, starters, fill, answers) {
        Ok(found) => write_found(alloc, found, out),
        Err(stopped) => Err(stopped),
    }
}

// Writes the exact report of what came of a rehearsal.
fn write_found<O: Output>(
    alloc: Global,
    found: GivenOutcome,
    out: &mut O,
) -> Result<(GivenOutcome, Status), Unrehearsed>
    requires { HasWinners found.outcome }
    ensures found { IfOk result (λ it. it.0 ≡ found) }
    ensures wrote { IfOk result (λ it. Wrote (IsOfOutcome found.outcome) O.writer out.old it.1 out.new) }
    ensures stops { IfErr result (λ e.
        StopsWriting (IsOfOutcome found.outcome) O.writer out.old e.halted.error out.new) }
    ensures no_text { IfErr result (λ e. IfSome e.halted.text (λ it. ⊥)) }
    ensures no_plan { IfErr result (λ e. IfSome e.given (λ it. ⊥)) }
{
    match write_outcome(alloc, &found.outcome, out) {
        Ok(status) => Ok((found, status)),
        Err(error) => Err(Unrehearsed::from(Halted::from(error))),
    }
}

fn write_outcome<O: Output>(
    alloc: Global,
    outcome: &Outcome,
    out: &mut O,
) -> Result<Status, RunError>
    requires { HasWinners outcome.now }
    ensures wrote { IfOk result (λ it. Wrote (IsOfOutcome outcome.now) O.writer out.old it out.new) }
    ensures stops { IfErr result (λ e. StopsWriting (IsOfOutcome outcome.now) O.writer out.old e out.new) }
{
    let report = outcome_report(alloc, outcome)?;
    write_lines(out, report.as_bytes(), status_of_outcome(outcome))
}

// ---- without a certificate

/// What comes of the plan that the readers give, and of the certificate for it, which is made here.
///
/// # Errors
///
/// `Read` where a reader failed or gave no end, and `Plan` with the first refusal of a text. `Bench` with the refusal of the
/// starters of a safe plan, which is handed back. `NoMemory` where an allocation fails.
pub fn find_self_rehearsed<R: Threads + Wait + Clock + Sync, I: Input>(
    rt: &R,
    alloc: Global,
    readers: &mut [I],
    starters: &str,
    fill: bool,
    answers: &[bool],
) -> Result<GivenOutcome, Unrehearsed>
    ensures read { IfOk result (λ it.
        ReadsTexts I.reader readers.old (bytes_of it.provenance.texts.items) readers.new) }
    ensures outcome { IfOk result (λ it. (plan : Contents) × GiveThePlan (bytes_of it.provenance.texts.items) plan
        × IsCertificateText plan it.cert.items
        × IsOutcomeOf plan starters.now answers.now fill it.cert.items it.outcome
        × Judges (outcome_status it.outcome) plan) }
    ensures winners { IfOk result (λ it. HasWinners it.outcome) }
    ensures stops { IfErr result (λ e.
        HaltsAtOwnStarters I.reader starters.now readers.old e.halted.error readers.new) }
    ensures text { IfErr result (λ e. IfSome e.halted.text (λ it.
        ReadsUpTo I.reader readers.old (bytes_of it.before.items) it.text.items readers.new)) }
    ensures back { IfErr result (λ e. IfSome e.given (λ it.
        GiveThePlan (bytes_of it.provenance.texts.items) (plan_contents it.plan))) }
{
    match find_among(alloc, readers) {
        Ok(given) => rehearse_alone(rt, alloc, given, starters, fill, answers),
        Err(halted) => Err(Unrehearsed::from(halted)),
    }
}

// The same of a plan that was found.
fn rehearse_alone<R: Threads + Wait + Clock + Sync>(
    rt: &R,
    alloc: Global,
    given: GivenPlan,
    starters: &str,
    fill: bool,
    answers: &[bool],
) -> Result<GivenOutcome, Unrehearsed>
    ensures provenance { IfOk result (λ it. it.provenance ≡ given.provenance) }
    ensures own { IfOk result (λ it. IsCertificateText (plan_contents given.plan) it.cert.items) }
    ensures outcome { IfOk result (λ it.
        IsOutcomeOf (plan_contents given.plan) starters.now answers.now fill it.cert.items it.outcome) }
    ensures judged { IfOk result (λ it. Judges (outcome_status it.outcome) (plan_contents given.plan)) }
    ensures winners { IfOk result (λ it. HasWinners it.outcome) }
    ensures refused { IfErr result (λ e. (e.halted.error ≡ NoMemory)
        ⊎ (IsSafe (plan_contents given.plan) × RefusesStarters (plan_contents given.plan) starters.now e.halted.error)) }
    ensures no_text { IfErr result (λ e. IfSome e.halted.text (λ it. ⊥)) }
    ensures back { IfErr result (λ e. IfSome e.given (λ it. it ≡ given)) }
{
    match own_certificate(alloc, &given.plan) {
        Ok(cert) => rehearse_given(rt, alloc, given, cert, starters, fill, answers),
        Err(error) => Err(Unrehearsed::from(Halted::from(error))),
    }
}

// The text of the certificate of a plan.
fn own_certificate(alloc: Global, plan: &Plan) -> Result<Vec<u8>, AllocError>
    ensures { IfOk result (λ text. IsCertificateText (plan_contents plan.now) text.items) }
{
    let faults = faults(alloc, plan)?;
    certificate_text(alloc, plan, &faults)
}

/// The same, and writes it, as `bench_given` does.
///
/// # Errors
///
/// Those of `find_self_rehearsed`, and then `Write` where the writer failed or took no bytes: it has then taken the first bytes of
/// the report. After every other error the writer was not called.
pub fn self_bench_given<R: Threads + Wait + Clock + Sync, I: Input, O: Output>(
    rt: &R,
    alloc: Global,
    readers: &mut [I],
    out: &mut O,
    starters: &str,
    fill: bool,
    answers: &[bool],
) -> Result<(GivenOutcome, Status), Unrehearsed>
    ensures report { IfOk result (λ it.
        Reports (ReadsTexts I.reader) (DueFor (SelfRehearsedPlan starters.now answers.now fill)) O.writer
        readers.old out.old it.1 readers.new out.new) }
    ensures winners { IfOk result (λ it. HasWinners it.0.outcome) }
    ensures stops { IfErr result (λ e.
        Stops (ReadsTexts I.reader) (DueFor (SelfRehearsedPlan starters.now answers.now fill)) O.writer
        (HaltsAtOwnStarters I.reader starters.now)
        readers.old out.old e.halted.error readers.new out.new) }
    ensures text { IfErr result (λ e. IfSome e.halted.text (λ it.
        ReadsUpTo I.reader readers.old (bytes_of it.before.items) it.text.items readers.new)) }
    ensures back { IfErr result (λ e. IfSome e.given (λ it.
        GiveThePlan (bytes_of it.provenance.texts.items) (plan_contents it.plan))) }
{
    match find_self_rehearsed(rt, alloc, readers, starters, fill, answers) {
        Ok(found) => write_found(alloc, found, out),
        Err(stopped) => Err(stopped),
    }
}
