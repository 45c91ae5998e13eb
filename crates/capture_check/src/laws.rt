// Who explains a transaction, in terms of what may happen on the bus. The function is a law: it does nothing, and its
// contract is the theorem.

ghost use Rattle.std.specs.Prelude.{◌≡◌, ◌≢◌, ℕ, ◌↔◌, List, []};
ghost use Rattle.plan_core.specs.Contents.{Contents};
ghost use Rattle.capture_check.specs.declared.listening.Mark.{Mark};
ghost use Rattle.capture_check.specs.declared.listening.Until.TheVariants.{Stopped};
ghost use Rattle.capture_check.specs.Explained.{Leaver, AreExplainers};
ghost use Rattle.capture_check.specs.RunMarks.{EndsRunWith, SomeRunEndsWith};
ghost use Rattle.capture_check.specs.Transactions.{Recorded};

/// In every plan, a participant explains a transaction that a STOP ended exactly where some run ends with its marks and
/// that participant has not lost arbitration: the run ends in a STOP and has just these marks, or it ends in a claim and
/// its first eight slots have the first eight of them. So somebody explains the transaction exactly where there is such a
/// run, and the list of those who do is empty exactly where there is none.
pub fn explained_transactions_are_those_of_runs()
    ensures each { (plan : Contents) (marks : List Mark) (p : ℕ) → Leaver plan marks p ↔ EndsRunWith plan marks p }
    ensures somebody { (plan : Contents) (marks : List Mark) →
        ((p : ℕ) × Leaver plan marks p) ↔ SomeRunEndsWith plan marks }
    ensures listed { (plan : Contents) (t : Recorded) (time : ℕ) (ps : List ℕ) →
        AreExplainers plan t ps → t.until ≡ Stopped time → (ps ≢ [] ↔ SomeRunEndsWith plan t.marks) }
{}
