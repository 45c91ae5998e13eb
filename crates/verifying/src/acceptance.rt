// A plan and its certificate, both as bytes.

ghost use Rattle.std.specs.Prelude.{◌≡◌, ◌≤◌, ℕ, List, Bool, length, Ok, Err};
ghost use Rattle.message_tree.specs.declared.items.Item.{Item};
ghost use Rattle.message_tree.specs.declared.items.Item.TheVariants.{Heard};
ghost use Rattle.certificate.specs.declared.errors.CertFault.{CertFault};
ghost use Rattle.plan_core.specs.Contents.{Contents};
ghost use Rattle.plan_core.specs.Faults.{IsSafe};
ghost use Rattle.plan_core.specs.Lawful.{Set, In};
ghost use Rattle.plan_core.specs.Laws.{HasNext};
ghost use Rattle.plan_core.specs.Participants.{IsInterrupt};
ghost use Rattle.plan_core.specs.Rounds.{Offers, IsRound, NoClash};
ghost use Rattle.plan_core.specs.Runs.{IsReached, HasEnded, Whole};
ghost use Rattle.plan_text.specs.declared.errors.PlanError.{PlanError};
ghost use Rattle.plan_text.specs.Grammar.{Spells};
ghost use Rattle.plan_text.specs.Refusals.{First};
ghost use Rattle.verifying.specs.Accepts.{IsCertified, IsRefuted, IsMistaken, Answers, FoundSafe};
ghost use Rattle.verifying.specs.Refused.{refused_with};
ghost use Rattle.verifying.specs.Right.{IsRight};
ghost use Rattle.verifying.specs.declared.acceptance.AcceptError.TheVariants.{NoMemory};

use cert_check::{Answer, check_certificate};
use plan_text::{PlanError, read_plan};
use std::alloc::{AllocError, Global};
use thiserror::Error;

/// Why there is no answer.
#[derive(Clone, Copy, Debug, PartialEq, Eq, Error)]
pub enum AcceptError {
    /// P1 to P8: the first refusal of the plan's text.
    #[error("{0}")]
    Plan(PlanError),
    /// P9 or C4: an allocation failed before another refusal was met.
    #[error("memory")]
    NoMemory,
}

impl From<PlanError> for AcceptError {
    ghost from_gives = { λ e f. f ≡ refused_with e };

    fn from(error: PlanError) -> AcceptError {
        match error {
            PlanError::NoMemory => AcceptError::NoMemory,
            _ => AcceptError::Plan(error),
        }
    }
}

impl From<AllocError> for AcceptError {
    ghost from_gives = { λ _ f. f ≡ NoMemory };

    fn from(_error: AllocError) -> AcceptError {
        AcceptError::NoMemory
    }
}

/// Whether the certificate proves that the plan is safe, or shows that it is not.
///
/// The plan is read first, then the certificate, line by line, as `check_certificate` reads it. So it takes memory for
/// the plan, for one proof, and for the lines that are remembered (64 MiB, and places of 2.6 MB, at most), however long
/// the certificate is.
///
/// Where it answers `Safe`, no run of the bus has a fault, whatever participants start together and whatever the
/// targets return: no repeated START or STOP meets another's data bit or each other (UM10204, 3.1.8), no controller
/// shares a whole header with an interrupt, and every participant that has not lost arbitration stands whole on the
/// wire at the end. That is said of the bus as BUS.md has it: participants start only on a free bus, each sends only
/// what its message offers and stops driving once it has lost, and the wires are a wired-AND.
///
/// # Errors
///
/// `Plan` with the first refusal of the plan's text. `NoMemory` where an allocation fails before another refusal is
/// met. What is wrong with the certificate is an answer: first what is wrong with its text, by itself; then, of proofs,
/// another number than that of the plan's pairs, and else the first pair that is not proved; of a fault, that its pair
/// does not have it.
pub fn accept(alloc: Global, plan: &[u8], cert: &[u8]) -> Result<Answer, AcceptError>
    // What is answered is right.
    ensures safe { result ≡ Ok Answer.Safe → IsCertified plan.now cert.now }
    ensures not_safe { result ≡ Ok Answer.Unsafe → IsRefuted plan.now cert.now }
    ensures wrong { (fault : CertFault) → result ≡ Ok (Answer.Wrong fault) → IsMistaken plan.now cert.now fault }
    ensures refused { (e : PlanError) → result ≡ Err (AcceptError.Plan e) → First plan.now e }
    // What is right is answered, unless an allocation fails.
    ensures finds_safe { IsCertified plan.now cert.now → Answers (Ok Answer.Safe) result }
    ensures finds_unsafe { IsRefuted plan.now cert.now → Answers (Ok Answer.Unsafe) result }
    ensures finds_wrong { (fault : CertFault) →
        IsMistaken plan.now cert.now fault → Answers (Ok (Answer.Wrong fault)) result }
    ensures refuses { (e : PlanError) → First plan.now e → Answers (Err (AcceptError.Plan e)) result }
    ensures memory { result ≡ Err (AcceptError.Plan PlanError.NoMemory) → ⊥ }
    // What is found safe is safe: no lawful set ever gets to a fault.
    ensures no_fault { (P : Contents) → FoundSafe plan.now P result → IsSafe P }
    // No round of a state that a lawful set reaches clashes.
    ensures no_clash { (P : Contents) (s live : Set) (u : List Item) (put : ℕ → Item) →
        FoundSafe plan.now P result → IsReached P s u live → IsRound P u live put → NoClash live put }
    // Each such state that has not ended has a next slot.
    ensures next { (P : Contents) (s live : Set) (u : List Item) →
        FoundSafe plan.now P result → IsReached P s u live → (HasEnded u → ⊥) → HasNext P u live }
    // Where one live participant may hear a bit, all may, and the targets may send either.
    ensures answers { (P : Contents) (s live : Set) (u : List Item) (p : ℕ) (b c : Bool) →
        FoundSafe plan.now P result → IsReached P s u live → In p live → Offers P p u (Heard b) →
        IsRound P u live (λ _. Heard c) }
    // Somebody is always live.
    ensures somebody { (P : Contents) (s live : Set) (u : List Item) →
        FoundSafe plan.now P result → IsReached P s u live → (p : ℕ) × In p live }
    // No run is longer than 2,560 slots.
    ensures bound { (P : Contents) (s live : Set) (u : List Item) →
        FoundSafe plan.now P result → IsReached P s u live → length u ≤ 2560 }
    // Where a run has ended, each live participant stands whole on the wire.
    ensures whole { (P : Contents) (s live : Set) (u : List Item) (p : ℕ) →
        FoundSafe plan.now P result → IsReached P s u live → HasEnded u → In p live → Whole P p u }
    // An interrupt that has sent its whole header, eight bits, is live alone: no controller shares it, and no other
    // interrupt.
    ensures header { (P : Contents) (s live : Set) (u : List Item) (p q : ℕ) →
        FoundSafe plan.now P result → IsReached P s u live → length u ≡ 8 → IsInterrupt P p →
        In p live → In q live → q ≡ p }
    // What is found unsafe is not safe.
    ensures faulty { (P : Contents) → Spells plan.now P → result ≡ Ok Answer.Unsafe → IsSafe P → ⊥ }
{
    judge(alloc, plan, cert)
}

// The same, by what is right.
fn judge(alloc: Global, plan: &[u8], cert: &[u8]) -> Result<Answer, AcceptError>
    ensures { IsRight plan.now cert.now result }
{
    let plan = read_plan(alloc, plan)?;
    let answer = check_certificate(alloc, &plan, cert)?;
    Ok(answer)
}
