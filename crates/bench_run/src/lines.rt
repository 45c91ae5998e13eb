// The lines of what a rehearsal comes to.

ghost use Rattle.std.specs.Prelude.{◌≡◌, ◌++◌, IfOk, OnOk, string_bytes};
ghost use Rattle.plan_core.specs.PlanContents.{plan_contents};
ghost use Rattle.bench_run.specs.Lines.{rehearsal_lines, wire_line, won_line};
ghost use Rattle.bench_run.specs.Outcomes.{AreParticipants, HasWinners, outcome_lines, outcome_status};

use crate::values::Outcome;
use bus_bench::Played;
use certificate::push_wire;
use plan_core::Plan;
use run_parts::{Status, push_labels};
use std::alloc::{AllocError, Global};
use verifying::{answer_line, status_of_answer};

/// The wire and those who were live at its end; or the line of `run_verify`, where the plan was not accepted.
pub fn outcome_report(alloc: Global, outcome: &Outcome) -> Result<String, AllocError>
    requires { HasWinners outcome.now }
    ensures { IfOk result (λ lines. string_bytes lines ≡ outcome_lines outcome.now) }
{
    match outcome {
        Outcome::Played(it) => played_lines(alloc, it.accepted.plan(), &it.played),
        Outcome::NotAccepted(it) => answer_line(alloc, it.answer),
    }
}

/// `Good` where the plan was accepted, and else the status of `run_verify`.
pub fn status_of_outcome(outcome: &Outcome) -> Status
    ensures { result ≡ outcome_status outcome.now }
{
    match outcome {
        Outcome::Played(_) => Status::Good,
        Outcome::NotAccepted(it) => status_of_answer(it.answer),
    }
}

// The wire, and those who were live at its end.
fn played_lines(alloc: Global, plan: &Plan, played: &Played) -> Result<String, AllocError>
    requires { AreParticipants (plan_contents plan.now) played.now.won.items }
    ensures { IfOk result (λ lines. string_bytes lines ≡
        rehearsal_lines (plan_contents plan.now) played.now.wire.items played.now.won.items) }
{
    let mut lines = String::new(alloc);
    push_wire_line(&mut lines, played)?;
    push_won_line(alloc, &mut lines, plan, played)?;
    Ok(lines)
}

/// Adds the line of the wire of a run: `wire WIRE`.
pub fn push_wire_line(lines: &mut String, played: &Played) -> Result<(), AllocError>
    ensures { OnOk result (string_bytes lines.new ≡ string_bytes lines.old ++ wire_line played.now.wire.items) }
{
    lines.push_str("wire ")?;
    push_wire(lines, &played.wire)?;
    lines.push_str("\n")?;
    Ok(())
}

/// Adds the line of those who were live at its end: `won LABEL LABEL ..`.
pub fn push_won_line(
    alloc: Global,
    lines: &mut String,
    plan: &Plan,
    played: &Played,
) -> Result<(), AllocError>
    requires { AreParticipants (plan_contents plan.now) played.now.won.items }
    ensures { OnOk result (string_bytes lines.new ≡
        string_bytes lines.old ++ won_line (plan_contents plan.now) played.now.won.items) }
{
    lines.push_str("won")?;
    push_labels(alloc, lines, plan, &played.won)?;
    lines.push_str("\n")?;
    Ok(())
}
