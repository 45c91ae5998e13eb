// Who starts, and what the targets answer, as texts say it.

ghost use Rattle.std.specs.Prelude.{◌≡◌, ◌==◌, IfOk, map};
ghost use Rattle.std.specs.List.{slice_split};
ghost use Rattle.plan_core.specs.PlanContents.{plan_contents};
ghost use Rattle.bench_run.specs.Starters.{labels_in, IsNumberOf, AreNumbersOf, bits_in};

use plan_core::Plan;
use std::alloc::{AllocError, Global};

/// The labels of this text, which commas part. The empty text has none.
pub(crate) fn labels_of(alloc: Global, starters: &str) -> Result<Vec<&str>, AllocError>
    ensures { IfOk result (λ v. map (λ x. x.now) v.items ≡ labels_in starters.now) }
{
    if starters.is_empty() {
        return Ok(Vec::new(alloc));
    }
    split(alloc, starters)
}

fn split(alloc: Global, starters: &str) -> Result<Vec<&str>, AllocError>
    ensures { IfOk result (λ v. map (λ x. x.now) v.items ≡ slice_split (λ b. b == 44) starters.now) }
{
    starters.split(',').collect(alloc)
}

/// The participants with these labels. In place of a label that the plan does not have stands a number that no participant has.
pub(crate) fn numbers_of(
    alloc: Global,
    plan: &Plan,
    labels: &[&str],
) -> Result<Vec<u32>, AllocError>
    ensures { IfOk result (λ v. AreNumbersOf (plan_contents plan.now) (map (λ x. x.now) labels.now) v.items) }
{
    let mut numbers = Vec::new(alloc);
    for label in labels {
        numbers.push(number_of(plan, label))?;
    }
    Ok(numbers)
}

fn number_of(plan: &Plan, label: &str) -> u32
    ensures { IsNumberOf (plan_contents plan.now) label.now result }
{
    match plan.find(label) {
        Some(number) => number,
        None => plan.participants(),
    }
}

/// The bits of a text of `0` and `1`.
pub(crate) fn bits_of(alloc: Global, answers: &str) -> Result<Vec<bool>, AllocError>
    ensures { IfOk result (λ v. v.items ≡ bits_in answers.now) }
{
    let mut bits = Vec::new(alloc);
    let bytes = answers.as_bytes();
    for byte in bytes {
        bits.push(*byte == b'1')?;
    }
    Ok(bits)
}
