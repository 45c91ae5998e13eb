// The lines of proofs, judged one by one. For each two senders the line that was proved for them is remembered: where the
// text goes on with the same bytes for a further pair of the two, that pair is proved by them. Another line is laid beside
// its pair as it stands, and only where that says nothing is it read.

ghost use Rattle.std.specs.Prelude.{◌≡◌, ◌<◌, true, false, Some, None, length, IfOk, IfErr, IfSome, IfNone, OnErr};
ghost use Rattle.certificate.specs.Proofs.{ProofTree};
ghost use Rattle.certificate.specs.Reading.{AddsTree, EndsHere, RefusedHere, bytes_left};
ghost use Rattle.plan_core.specs.PlanContents.{plan_contents};
ghost use Rattle.plan_core.specs.Pairs.{pairs_of};
ghost use Rattle.cert_check.specs.Judged.{IsMemo, AddsOne, Stays, next_pair};
ghost use Rattle.cert_check.specs.Proved.{ProvesPair};
ghost use Rattle.cert_check.specs.Quick.{ProvesLine};

use crate::memos::Memo;
use crate::pairs::check_pair;
use crate::quick::quick_line;
use crate::tallies::Tally;
use certificate::{CertError, ProofLines};
use plan_core::Plan;
use std::alloc::Global;

/// Judges the next proof, if the text does not end here.
///
/// # Errors
///
/// As those of `ProofLines::next_proof`.
pub(crate) fn judge_next(
    alloc: Global,
    plan: &Plan,
    lines: &mut ProofLines<'_>,
    tally: &mut Tally,
    memo: &mut Memo,
) -> Result<bool, CertError>
    requires { IsMemo (plan_contents plan.now) memo.old }
    ensures memo { IsMemo (plan_contents plan.now) memo.new }
    ensures more { IfOk result (λ more. more ≡ true →
        AddsOne (plan_contents plan.now) (lines.old, tally.old) (lines.new, tally.new)) }
    ensures less { IfOk result (λ more. more ≡ true → bytes_left lines.new < bytes_left lines.old) }
    ensures end { IfOk result (λ more. more ≡ false → EndsHere lines.old × Stays (lines.old, tally.old) (lines.new, tally.new)) }
    ensures refused { IfErr result (λ e. RefusedHere lines.old e) }
    ensures unchanged { OnErr result (Stays (lines.old, tally.old) (lines.new, tally.new)) }
{
    match tally.next_pair(plan) {
        Some(i) => judge_pair(alloc, plan, i, lines, tally, memo),
        None => judge_spare(alloc, plan, lines, tally),
    }
}

// The proof of pair `i`.
fn judge_pair(
    alloc: Global,
    plan: &Plan,
    i: u32,
    lines: &mut ProofLines<'_>,
    tally: &mut Tally,
    memo: &mut Memo,
) -> Result<bool, CertError>
    requires memo { IsMemo (plan_contents plan.now) memo.old }
    requires pair { next_pair (plan_contents plan.now) tally.old ≡ Some i }
    requires within { i < length (pairs_of (plan_contents plan.now)) }
    ensures memo { IsMemo (plan_contents plan.now) memo.new }
    ensures more { IfOk result (λ more. more ≡ true →
        AddsOne (plan_contents plan.now) (lines.old, tally.old) (lines.new, tally.new)) }
    ensures less { IfOk result (λ more. more ≡ true → bytes_left lines.new < bytes_left lines.old) }
    ensures end { IfOk result (λ more. more ≡ false → EndsHere lines.old × Stays (lines.old, tally.old) (lines.new, tally.new)) }
    ensures refused { IfErr result (λ e. RefusedHere lines.old e) }
    ensures unchanged { OnErr result (Stays (lines.old, tally.old) (lines.new, tally.new)) }
{
    if is_taken(plan, i, lines, memo) {
        tally.add(plan, true);
        return Ok(true);
    }
    if let Some(line) = take_quick(plan, i, lines) {
        memo.learn(alloc, plan, i, line);
        tally.add(plan, true);
        return Ok(true);
    }
    let Some((proof, line)) = lines.next_line(alloc)? else {
        return Ok(false);
    };
    let proves = check_pair(plan, i, &proof);
    if proves {
        memo.learn(alloc, plan, i, line);
    }
    tally.add(plan, proves);
    Ok(true)
}

// Whether the text goes on with the line that is remembered for the senders of pair `i`, if one is, which is then taken.
fn is_taken(plan: &Plan, i: u32, lines: &mut ProofLines<'_>, memo: &Memo) -> bool
    requires memo { IsMemo (plan_contents plan.now) memo.now }
    requires within { i < length (pairs_of (plan_contents plan.now)) }
    ensures taken { result ≡ true →
        (tree : ProofTree) × ProvesPair (plan_contents plan.now) i tree × AddsTree tree lines.old lines.new }
    ensures less { result ≡ true → bytes_left lines.new < bytes_left lines.old }
    ensures unchanged { result ≡ false → lines.new ≡ lines.old }
{
    match memo.recall(plan, i) {
        Some(line) => lines.takes_again(line),
        None => false,
    }
}

// The next line, taken unread, where it can be seen at once that it proves pair `i`. None says nothing.
fn take_quick<'a>(plan: &Plan, i: u32, lines: &mut ProofLines<'a>) -> Option<&'a [u8]>
    requires { i < length (pairs_of (plan_contents plan.now)) }
    ensures proved { IfSome result (λ line. ProvesLine (plan_contents plan.now) i line.now) }
    ensures read { IfSome result (λ line.
        (tree : ProofTree) × ProvesPair (plan_contents plan.now) i tree × AddsTree tree lines.old lines.new) }
    ensures less { IfSome result (λ line. bytes_left lines.new < bytes_left lines.old) }
    ensures unchanged { IfNone result (lines.new ≡ lines.old) }
{
    let size = quick_line(plan, i, lines.rest())?;
    Some(lines.take_line(size))
}

// A proof that no pair waits for.
fn judge_spare(
    alloc: Global,
    plan: &Plan,
    lines: &mut ProofLines<'_>,
    tally: &mut Tally,
) -> Result<bool, CertError>
    requires { next_pair (plan_contents plan.now) tally.old ≡ None }
    ensures more { IfOk result (λ more. more ≡ true →
        AddsOne (plan_contents plan.now) (lines.old, tally.old) (lines.new, tally.new)) }
    ensures less { IfOk result (λ more. more ≡ true → bytes_left lines.new < bytes_left lines.old) }
    ensures end { IfOk result (λ more. more ≡ false → EndsHere lines.old × Stays (lines.old, tally.old) (lines.new, tally.new)) }
    ensures refused { IfErr result (λ e. RefusedHere lines.old e) }
    ensures unchanged { OnErr result (Stays (lines.old, tally.old) (lines.new, tally.new)) }
{
    let Some((proof, _)) = lines.next_line(alloc)? else {
        return Ok(false);
    };
    drop(proof);
    tally.add(plan, false);
    Ok(true)
}
