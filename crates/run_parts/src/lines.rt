// Parts of lines that several reports have.

ghost use Rattle.std.specs.Prelude.{◌≡◌, ℕ, ◌<◌, ◌++◌, Contains, string_bytes, OnOk};
ghost use Rattle.plan_core.specs.Participants.{participant_count};
ghost use Rattle.plan_core.specs.PlanContents.{plan_contents};
ghost use Rattle.run_parts.specs.Lines.{labels};

use plan_core::Plan;
use std::alloc::{AllocError, Global};

/// Adds the labels of participants, each after a space.
pub fn push_labels(
    alloc: Global,
    lines: &mut String,
    plan: &Plan,
    participants: &[u32],
) -> Result<(), AllocError>
    requires { (p : ℕ) → Contains participants.now p → p < participant_count (plan_contents plan.now) }
    ensures { OnOk result (string_bytes lines.new ≡ string_bytes lines.old ++
        labels (plan_contents plan.now) participants.now) }
{
    for p in participants {
        let label = plan.label(alloc, *p)?;
        let label = label.as_str();
        write!(lines, " {label}")?;
    }
    Ok(())
}
