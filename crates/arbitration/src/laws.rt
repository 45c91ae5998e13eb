// What outcomes say of runs. The function does nothing, and its contract is the theorem.

ghost use Rattle.std.specs.Prelude.{◌≢◌, ℕ, ◌↔◌, List};
ghost use Rattle.message_tree.specs.declared.items.Item.{Item};
ghost use Rattle.plan_core.specs.Contents.{Contents};
ghost use Rattle.plan_core.specs.Faults.{IsFaulty};
ghost use Rattle.plan_core.specs.Laws.{SendsItsMessages, BothLive};
ghost use Rattle.plan_core.specs.Lawful.{pair, IsPair};
ghost use Rattle.plan_core.specs.Participants.{Text};
ghost use Rattle.arbitration.specs.Arbitration.{EndTogether, Wins};
ghost use Rattle.arbitration.specs.Laws.{EndsAt, BeatsAt, ComesTo, SomeOutcome};

/// Two participants who start alone may both be live when their run ends in slot k exactly where their texts may end
/// together there, and one of them may lose to the other in slot k exactly where the other's text wins there. Where the
/// pair has no fault, each of its runs with both live may go on to one of the three, so there is one.
pub fn outcomes_are_of_runs()
    ensures both { (plan : Contents) (x y k : ℕ) →
        x ≢ y → (EndTogether (Text plan x) (Text plan y) k ↔ EndsAt plan x y k) }
    ensures first { (plan : Contents) (x y k : ℕ) →
        x ≢ y → (Wins (Text plan x) (Text plan y) k ↔ BeatsAt plan (pair x y) x y k) }
    ensures second { (plan : Contents) (x y k : ℕ) →
        x ≢ y → (Wins (Text plan y) (Text plan x) k ↔ BeatsAt plan (pair x y) y x k) }
    ensures goes_on { (plan : Contents) (x y : ℕ) (u : List Item) →
        SendsItsMessages plan → IsPair plan x y → (IsFaulty plan (pair x y) → ⊥) → BothLive plan x y u →
        ComesTo plan x y u }
    ensures some { (plan : Contents) (x y : ℕ) →
        SendsItsMessages plan → IsPair plan x y → (IsFaulty plan (pair x y) → ⊥) → SomeOutcome plan x y }
{}
