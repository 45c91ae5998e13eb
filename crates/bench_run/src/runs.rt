// The run that rehearses a plan: what it comes to, and the report on it.

ghost use Rattle.std.specs.Prelude.{◌≡◌, ◌⊎◌, ℕ, List, IfOk, IfErr, string_bytes};
ghost use Rattle.plan_core.specs.PlanContents.{plan_contents};
ghost use Rattle.plan_text.specs.Grammar.{Spells};
ghost use Rattle.run_parts.specs.Runs.{ReadsBoth, Reports, Stops};
ghost use Rattle.bench_run.specs.Outcomes.{HasWinners, outcome_lines, outcome_status};
ghost use Rattle.bench_run.specs.Rehearsals.{Rehearsed, IsNotOpened, HaltsAtBench};

use crate::gates::Gate;
use crate::lines::{outcome_report, status_of_outcome};
use crate::rehearsing::rehearse;
use crate::starters::bits_of;
use crate::values::Outcome;
use plan_core::Plan;
use plan_text::read_plan;
use run_parts::devices::reading::READS;
use run_parts::{Input, Output, RunError, Status, read_within, write_lines};
use std::alloc::Global;
use std::sync::Wait;
use std::thread::Threads;
use std::time::Clock;

/// Plays the starters of an accepted plan on a bench, each in a thread of its own, and writes the wire and who was live
/// at its end. `starters` has their labels, which commas part; `fill` is what they send for a bit that is open;
/// `answers` has the bits of the targets by slot as `0` and `1`, and past its end they are 1. Each player calls the
/// gate. Where the certificate is not accepted it writes the line of `run_verify`, with its status.
///
/// # Errors
///
/// `Read` where a reader failed or gave no end, `Plan` with the first refusal of the plan text, before the second
/// reader is called, `Bench` with the refusal of the starters, and `Write` where the writer failed or took no bytes.
/// `NoMemory` where an allocation fails. Only after `Write` has a part of the report been written: its first bytes.
/// After every other error the writer was not called.
pub fn run_bench<R: Threads + Wait + Clock + Sync, I: Input, J: Input, O: Output, G: Gate + Sync>(
    rt: &R,
    alloc: Global,
    plan: &mut I,
    cert: &mut J,
    out: &mut O,
    starters: &str,
    fill: bool,
    answers: &str,
    gate: &G,
) -> Result<Status, RunError>
    ensures report { IfOk result (λ status.
        Reports (ReadsBoth I.reader J.reader) (Rehearsed starters.now answers.now fill) O.writer
        (plan.old, cert.old) out.old status (plan.new, cert.new) out.new) }
    ensures stops { IfErr result (λ error.
        Stops (ReadsBoth I.reader J.reader) (Rehearsed starters.now answers.now fill) O.writer
        (HaltsAtBench I.reader J.reader starters.now)
        (plan.old, cert.old) out.old error (plan.new, cert.new) out.new) }
{
    let text = read_within(alloc, plan, READS)?;
    let plan = read_plan(alloc, text.as_slice())?;
    let cert = read_within(alloc, cert, READS)?;
    let (report, status) = rehearsed(
        rt,
        alloc,
        plan,
        cert.as_slice(),
        starters,
        fill,
        answers,
        gate,
    )?;
    write_lines(out, report.as_bytes(), status)
}

// The report on a plan that was read, and on the bytes of a certificate.
fn rehearsed<R: Threads + Wait + Clock + Sync, G: Gate + Sync>(
    rt: &R,
    alloc: Global,
    plan: Plan,
    cert: &[u8],
    starters: &str,
    fill: bool,
    answers: &str,
    gate: &G,
) -> Result<(String, Status), RunError>
    ensures report { IfOk result (λ r. (text : List ℕ) → Spells text (plan_contents plan) →
        Rehearsed starters.now answers.now fill (text, cert.now) (string_bytes r.0) r.1) }
    ensures refused { IfErr result (λ error. (text : List ℕ) → Spells text (plan_contents plan) →
        (error ≡ RunError.NoMemory) ⊎ IsNotOpened starters.now (text, cert.now) error) }
{
    let bits = bits_of(alloc, answers)?;
    match rehearse(rt, alloc, plan, cert, starters, fill, bits.as_slice(), gate) {
        Ok(outcome) => report_on(alloc, &outcome),
        Err(unplayed) => Err(unplayed.error),
    }
}

// The lines of what came of it, and the status.
fn report_on(alloc: Global, outcome: &Outcome) -> Result<(String, Status), RunError>
    requires { HasWinners outcome.now }
    ensures lines { IfOk result (λ r. string_bytes r.0 ≡ outcome_lines outcome.now) }
    ensures status { IfOk result (λ r. r.1 ≡ outcome_status outcome.now) }
    ensures memory { IfErr result (λ error. error ≡ RunError.NoMemory) }
{
    let report = outcome_report(alloc, outcome)?;
    Ok((report, status_of_outcome(outcome)))
}
