// The lines of the reports.

ghost use Rattle.std.specs.Prelude.{◌≡◌, ℕ, ◌<◌, ◌++◌, length, slice_get, Some, string_bytes, IfOk, OnOk};
ghost use Rattle.plan_core.specs.PlanContents.{plan_contents};
ghost use Rattle.plan_core.specs.Pairs.{pairs_of};
ghost use Rattle.message_tree.specs.Symbols.{wire_text};
ghost use Rattle.verdicts.specs.Faults.{fault_list};
ghost use Rattle.report.specs.FaultLines.{fault_report};
ghost use Rattle.report.specs.Lines.{fault_text, fault_line, last_line};

use certificate::{Fault, push_wire};
use plan_core::Plan;
use std::alloc::{AllocError, Global};
use verdicts::Checked;

/// The report of a check: a line for each pair that is not safe, in the order of the pairs, and one that counts them.
pub fn check_report(alloc: Global, checked: &Checked) -> Result<String, AllocError>
    ensures { IfOk result (λ report.
        string_bytes report ≡ fault_report (plan_contents checked.now.plan) (fault_list checked.now.faults)) }
{
    let Checked { plan, faults } = checked;
    let mut report = String::new(alloc);
    for k in 0..faults.len() {
        let (i, fault) = faults.get(k);
        push_fault(alloc, &mut report, plan, i, fault)?;
    }
    push_count(&mut report, plan.pair_count(), faults.len())?;
    Ok(report)
}

/// Adds the line of pair i, which has this fault: `pair I X Y: KIND against KIND after WIRE`.
pub fn push_fault(
    alloc: Global,
    report: &mut String,
    plan: &Plan,
    i: u32,
    fault: &Fault,
) -> Result<(), AllocError>
    requires { i < length (pairs_of (plan_contents plan.now)) }
    ensures { OnOk result ((p : ℕ × ℕ) → slice_get (pairs_of (plan_contents plan.now)) i ≡ Some p →
        string_bytes report.new ≡ string_bytes report.old ++ fault_line (plan_contents plan.now) i p fault.now) }
{
    let (x, y) = plan.pair(i);
    let first = plan.label(alloc, x)?;
    let second = plan.label(alloc, y)?;
    push_fault_text(report, i, first.as_str(), second.as_str(), fault)
}

// The line of a fault, of which these are the labels.
#[tactic(auto, unfolding(crate::specs::Lines::fault_text))]
fn push_fault_text(
    report: &mut String,
    i: u32,
    first: &str,
    second: &str,
    fault: &Fault,
) -> Result<(), AllocError>
    ensures { OnOk result (
        string_bytes report.new ≡ string_bytes report.old ++ fault_text i first.now second.now fault.now) }
{
    let first_kind = fault.first.word();
    let second_kind = fault.second.word();
    write!(
        report,
        "pair {i} {first} {second}: {first_kind} against {second_kind} after "
    )?;
    push_wire(report, &fault.wire)?;
    report.push_str("\n")?;
    Ok(())
}

/// Adds the line that counts the pairs, and those with a fault: `safe: N pairs` or `unsafe: F of N pairs`.
#[tactic(auto, unfolding(crate::specs::Lines::last_line))]
pub fn push_count(report: &mut String, pairs: u32, faults: usize) -> Result<(), AllocError>
    ensures { OnOk result (string_bytes report.new ≡ string_bytes report.old ++ last_line pairs faults) }
{
    if faults == 0 {
        writeln!(report, "safe: {pairs} pairs")
    } else {
        writeln!(report, "unsafe: {faults} of {pairs} pairs")
    }
}
