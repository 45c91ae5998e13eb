// What verdicts are worth. Each function is a law: it does nothing, and its contract is the theorem.

ghost use Rattle.std.specs.Prelude.{◌≡◌, ◌<◌, ℕ, Option, List};
ghost use Rattle.message_tree.specs.declared.items.Item.{Item};
ghost use Rattle.message_tree.specs.declared.items.Kind.{Kind};
ghost use Rattle.message_tree.specs.Texts.{Sender};
ghost use Rattle.certificate.specs.Proofs.{ProofTree};
ghost use Rattle.certificate.specs.Proves.{Proves};
ghost use Rattle.certificate.specs.declared.values.Fault.{Fault};
ghost use Rattle.plan_core.specs.Contents.{Contents};
ghost use Rattle.plan_core.specs.Participants.{sender_at};
ghost use Rattle.pair_walk.specs.Canonical.{IsCanonical};
ghost use Rattle.pair_walk.specs.Verdicts.{IsFirstFault, IsFirstFaultIfAny};

/// The proof of a verdict proves, and two participants have at most one. A pair has at most one first fault.
pub fn one_verdict()
    ensures proves { (p : ProofTree) (s t : Sender) → IsCanonical p s t → Proves p s t }
    ensures one_proof { (p q : ProofTree) (s t : Sender) → IsCanonical p s t → IsCanonical q s t → p ≡ q }
    ensures one_fault { (plan : Contents) (x y : ℕ) (u v : List Item) (j k a b : Kind) →
        IsFirstFault plan x y u j k → IsFirstFault plan x y v a b → (u ≡ v) × (j ≡ a) × (k ≡ b) }
{}

/// What a pair comes to depends on what its two participants send, and on nothing else: where two others send the same,
/// they have the same first fault, or none and a proof.
pub fn senders_decide()
    ensures { (plan : Contents) (x y v w : ℕ) → x < y → v < w →
        sender_at plan x ≡ sender_at plan v → sender_at plan y ≡ sender_at plan w →
        (found : Option Fault) → IsFirstFaultIfAny plan x y found → IsFirstFaultIfAny plan v w found }
{}
