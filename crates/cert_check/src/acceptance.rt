// A plan that was read, and its certificate as bytes.

ghost use Rattle.std.specs.Prelude.{◌≡◌, ◌≢◌, [], ℕ, List, Ok, IfOk, OnOk, IfErr, MatchResult};
ghost use Rattle.certificate.specs.Certificates.{flaw};
ghost use Rattle.certificate.specs.Proofs.{ProofTree};
ghost use Rattle.certificate.specs.Reading.{Fails, ReadSoFar};
ghost use Rattle.plan_core.specs.Contents.{Contents};
ghost use Rattle.plan_core.specs.PlanContents.{plan_contents};
ghost use Rattle.cert_check.specs.Accepts.{IsJudged, IsAnswer, Judges};
ghost use Rattle.cert_check.specs.Holds.{accepted_plan};
ghost use Rattle.cert_check.specs.Judged.{IsMemo, Tallies};

use crate::accepted::Accepted;
use crate::answers::{Answer, Answered, Judged};
use crate::faults::check_fault;
use crate::memos::Memo;
use crate::remembered::judge_next;
use crate::tallies::Tally;
use certificate::{CertError, CertFault, Fault, Head, ProofLines, Standing, read_head, refusal_of};
use plan_core::Plan;
use std::alloc::{AllocError, Global};

/// This plan, accepted where the certificate proves that it is safe, and else with the answer. It takes memory as
/// `check_certificate` does.
///
/// # Errors
///
/// Where an allocation fails.
pub fn accept_certificate(
    alloc: Global,
    plan: Plan,
    cert: &[u8],
) -> Result<Result<Accepted, Answered>, AllocError>
    ensures plan { IfOk result (λ r. IfOk r (λ it. accepted_plan it ≡ plan)) }
    ensures safe { IfOk result (λ r. OnOk r (IsAnswer (plan_contents plan) cert.now Answer.Safe)) }
    ensures back { IfOk result (λ r. IfErr r (λ it. it.plan ≡ plan)) }
    ensures not_safe { IfOk result (λ r. IfErr r (λ it.
        (it.answer ≢ Answer.Safe) × IsAnswer (plan_contents plan) cert.now it.answer)) }
{
    match check_certificate(alloc, &plan, cert)? {
        Answer::Safe => Ok(Ok(Accepted { plan })),
        Answer::Unsafe => Ok(Err(Answered {
            plan,
            answer: Answer::Unsafe,
            refusal: None,
        })),
        Answer::Wrong(fault) => Ok(Err(Answered {
            plan,
            answer: Answer::Wrong(fault),
            refusal: refusal_of(alloc, cert, None, fault)?,
        })),
    }
}

/// Whether the certificate proves that this plan is safe, or shows that it is not.
///
/// The certificate is read one line at a time: where a line proves its pair as it stands, no proof is made of it; of any
/// other line the proof is read, its pair is checked, and the proof is dropped. A line that proves its pair is remembered
/// for the two senders, as long as there is room for it: where the text has the same line for a further pair of them,
/// nothing is looked at again. So it takes memory for one proof, and for the lines that are remembered (64 MiB of lines at
/// most, and a place of some 32 bytes for each two messages or interrupts, 2.6 MB at most), however long the certificate
/// is.
///
/// # Errors
///
/// Where an allocation fails, unless the text was refused before. What is wrong with the certificate is an answer: first what is
/// wrong with its text, by itself; then, of proofs, another number than that of the plan's pairs, and else the first pair
/// that is not proved; of a fault, that its pair does not have it.
pub fn check_certificate(alloc: Global, plan: &Plan, cert: &[u8]) -> Result<Answer, AllocError>
    ensures { IfOk result (IsAnswer (plan_contents plan.now) cert.now) }
{
    answered(judge_cert(alloc, plan, cert))
}

/// The same, with the place where the text is refused.
pub fn check_certificate_at(alloc: Global, plan: &Plan, cert: &[u8]) -> Result<Judged, AllocError>
    ensures { IfOk result (λ it. IsAnswer (plan_contents plan.now) cert.now it.answer) }
{
    let answer = check_certificate(alloc, plan, cert)?;
    located(alloc, cert, None, answer)
}

/// The answer for a text, of which this is left after the lines that were read before, if some were; with the place where it
/// is refused.
pub(crate) fn located(
    alloc: Global,
    text: &[u8],
    before: Option<Standing>,
    answer: Answer,
) -> Result<Judged, AllocError>
    ensures { IfOk result (λ it. it.answer ≡ answer) }
{
    let refusal = match answer {
        Answer::Safe | Answer::Unsafe => None,
        Answer::Wrong(fault) => refusal_of(alloc, text, before, fault)?,
    };
    Ok(Judged { answer, refusal })
}

// What was judged of a text, as an answer.
pub(crate) fn answered(judged: Result<Answer, CertError>) -> Result<Answer, AllocError>
    ensures { (plan : Contents) (text : List ℕ) →
        MatchResult judged (IsJudged plan text) (Fails text) → IfOk result (IsAnswer plan text) }
{
    match judged {
        Ok(answer) => Ok(answer),
        Err(CertError::Wrong(fault)) => Ok(Answer::Wrong(fault)),
        Err(CertError::NoMemory) => Err(AllocError),
    }
}

// A certificate of this plan, from its first byte on.
fn judge_cert(alloc: Global, plan: &Plan, cert: &[u8]) -> Result<Answer, CertError>
    ensures { MatchResult result (IsJudged (plan_contents plan.now) cert.now) (Fails cert.now) }
{
    match read_head(alloc, cert)? {
        Head::Proofs(lines) => judge_proofs(alloc, plan, lines),
        Head::Flaw(pair, fault) => Ok(judge_fault(plan, pair, &fault)),
    }
}

// All proofs. The memory for the places of what is remembered is asked for before the first is read.
fn judge_proofs(alloc: Global, plan: &Plan, lines: ProofLines<'_>) -> Result<Answer, CertError>
    ensures { (text : List ℕ) → ReadSoFar text [] lines.entry →
        MatchResult result (IsJudged (plan_contents plan.now) text) (Fails text) }
{
    let memo = Memo::new(alloc, plan)?;
    judge_rest(alloc, plan, lines, Tally::new(), memo)
}

/// The proofs that are left, each of them dropped before the next is read, after those that are tallied.
pub(crate) fn judge_rest(
    alloc: Global,
    plan: &Plan,
    mut lines: ProofLines<'_>,
    mut tally: Tally,
    mut memo: Memo,
) -> Result<Answer, CertError>
    requires { IsMemo (plan_contents plan.now) memo }
    ensures { (text : List ℕ) (trees : List ProofTree) →
        ReadSoFar text trees lines.entry → Tallies (plan_contents plan.now) trees tally →
        MatchResult result (IsJudged (plan_contents plan.now) text) (Fails text) }
{
    'lines: while judge_next(alloc, plan, &mut lines, &mut tally, &mut memo)? {}
    Ok(match tally.fault(plan) {
        None => Answer::Safe,
        Some(fault) => Answer::Wrong(fault),
    })
}

// A fault that is said to be that of this pair.
fn judge_fault(plan: &Plan, pair: u32, fault: &Fault) -> Answer
    ensures { Judges (plan_contents plan.now) (flaw pair fault.now.wire.items fault.now.first fault.now.second) result }
{
    if pair < plan.pair_count() && check_fault(plan, pair, fault) {
        Answer::Unsafe
    } else {
        Answer::Wrong(CertFault::Pair(pair))
    }
}
