// The lines of proofs, each made once for the two senders whose proof it is.

ghost use Rattle.std.specs.Prelude.{◌≡◌, ℕ, ◌<◌, [], ◌++◌, length, map, replicate, slice_get, Some, IfOk, OnOk};
ghost use Rattle.std.specs.Prelude.{string_bytes, codes, decimal};
ghost use Rattle.plan_core.specs.PlanContents.{plan_contents};
ghost use Rattle.plan_core.specs.Faults.{IsSafe};
ghost use Rattle.plan_core.specs.Pairs.{pairs_of};
ghost use Rattle.verdicts.specs.Lines.{IsProofLine, AreLines, HasLine, HaveLines};

use certificate::print_line;
use pair_walk::{Outcome, walk};
use plan_core::Plan;
use std::alloc::{AllocError, Global};

/// The lines of the proofs of all pairs, each at the place of its two senders.
pub(crate) fn proof_lines(alloc: Global, plan: &Plan) -> Result<Vec<Vec<u8>>, AllocError>
    requires { IsSafe (plan_contents plan.now) }
    ensures lines { IfOk result (λ lines. AreLines (plan_contents plan.now) lines.items) }
    ensures made { IfOk result (λ lines.
        HaveLines (plan_contents plan.now) lines.items (length (pairs_of (plan_contents plan.now)))) }
{
    let mut lines = no_lines(alloc, plan.sender_places())?;
    for i in 0..plan.pair_count() {
        make_line(alloc, plan, &mut lines, i)?;
    }
    Ok(lines)
}

// So many lines that are not yet made: they are empty.
fn no_lines(alloc: Global, n: usize) -> Result<Vec<Vec<u8>>, AllocError>
    ensures { IfOk result (λ lines. map (λ line. line.items) lines.items ≡ replicate n []) }
{
    let mut lines = Vec::with_capacity(alloc, n)?;
    for _ in 0..n {
        lines.push(Vec::new(alloc))?;
    }
    Ok(lines)
}

// Makes the line of pair `i`, unless that of its two senders is made.
fn make_line(alloc: Global, plan: &Plan, lines: &mut Vec<Vec<u8>>, i: u32) -> Result<(), AllocError>
    requires safe { IsSafe (plan_contents plan.now) }
    requires pair { i < length (pairs_of (plan_contents plan.now)) }
    requires lines { AreLines (plan_contents plan.now) lines.old.items }
    ensures lines { OnOk result (AreLines (plan_contents plan.now) lines.new.items) }
    ensures made { OnOk result (HasLine (plan_contents plan.now) lines.new.items i) }
    ensures keeps { OnOk result ((j : ℕ) →
        HasLine (plan_contents plan.now) lines.old.items j → HasLine (plan_contents plan.now) lines.new.items j) }
{
    let place = plan.sender_place(i);
    if !lines[place].is_empty() {
        return Ok(());
    }
    lines[place] = line_of_pair(alloc, plan, i)?;
    Ok(())
}

// The line of the proof of pair `i`.
fn line_of_pair(alloc: Global, plan: &Plan, i: u32) -> Result<Vec<u8>, AllocError>
    requires safe { IsSafe (plan_contents plan.now) }
    requires pair { i < length (pairs_of (plan_contents plan.now)) }
    ensures { IfOk result (λ line. (x y : ℕ) → slice_get (pairs_of (plan_contents plan.now)) i ≡ Some (x, y) →
        IsProofLine (plan_contents plan.now) x y line.items) }
{
    match walk(alloc, plan, i)?.outcome {
        Outcome::Safe(proof) => print_line(alloc, &proof),
        Outcome::Unsafe(_) => unreachable!(),
    }
}

/// The two lines before so many proofs.
pub(crate) fn heading(alloc: Global, pairs: u32) -> Result<Vec<u8>, AllocError>
    ensures { IfOk result (λ text. text.items ≡ codes "cert 1\npairs " ++ (decimal pairs ++ codes "\n")) }
{
    let text = format!(in alloc; "cert 1\npairs {pairs}\n")?;
    Ok(text.into_bytes())
}
