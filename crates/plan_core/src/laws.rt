// What holds of the runs of every plan. Each function is a law: it does nothing, and its contract is the theorem.

ghost use Rattle.std.specs.Prelude.{◌≡◌, ℕ, ◌<◌, ◌≤◌, ◌↔◌, Bool, List, length};
ghost use Rattle.message_tree.specs.declared.items.Item.{Item};
ghost use Rattle.message_tree.specs.declared.items.Item.TheVariants.{Heard};
ghost use Rattle.message_tree.specs.declared.items.Kind.{Kind};
ghost use Rattle.plan_core.specs.Contents.{Contents};
ghost use Rattle.plan_core.specs.Lawful.{Set, In, IsLawful, pair, IsPair};
ghost use Rattle.plan_core.specs.Participants.{IsInterrupt};
ghost use Rattle.plan_core.specs.Rounds.{Follows, Offers, IsRound, NoClash};
ghost use Rattle.plan_core.specs.Runs.{Reaches, IsReached, HasEnded, Whole};
ghost use Rattle.plan_core.specs.Faults.{Fault, IsFaulty, IsSafe};
ghost use Rattle.plan_core.specs.Laws.{SendsItsMessages, HasShortMessages, NoClaim, BothLive, MayClash, HasNext, HasOneWire};

/// Who is live after the wire `u` has a text that begins with `u`. Two participants who both have such a text are both
/// live there when they start alone, unless a claim is in `u`, since two claims clash; one alone always is.
pub fn live_participants_follow()
    ensures followed { (plan : Contents) (s live : Set) (u : List Item) (p : ℕ) →
        SendsItsMessages plan → IsReached plan s u live → In p live → Follows plan p u }
    ensures both { (plan : Contents) (x y : ℕ) (u : List Item) →
        NoClaim u → Follows plan x u → Follows plan y u → BothLive plan x y u }
    ensures alone { (plan : Contents) (p : ℕ) (u : List Item) → Follows plan p u → BothLive plan p p u }
{}

/// Pairs suffice: a fault of any lawful set is the fault of two of its participants alone, at the same wire; a plan is
/// safe exactly where none of its pairs is faulty; and a pair is faulty exactly where, after some wire, the two may put
/// items that must not meet.
pub fn pairs_suffice()
    ensures fault { (plan : Contents) (s : Set) (u : List Item) (x y : ℕ) (j k : Kind) →
        IsLawful plan s → Fault plan s u x y j k → IsPair plan x y × Fault plan (pair x y) u x y j k }
    ensures safe { (plan : Contents) →
        (IsSafe plan ↔ ((x y : ℕ) → IsPair plan x y → IsFaulty plan (pair x y) → ⊥)) }
    ensures clash { (plan : Contents) (x y : ℕ) (u : List Item) (j k : Kind) →
        x < y → (Fault plan (pair x y) u x y j k ↔ MayClash plan x y u j k) }
{}

/// Runs are what they should be, in every plan: somebody is live in each state that a lawful set reaches; the wire of a
/// round without a clash shows exactly one item; no run is longer than 2,560 slots; and where a run has ended, each live
/// participant stands whole on the wire.
pub fn runs_are_sound()
    ensures live { (plan : Contents) (s live : Set) (u : List Item) →
        IsReached plan s u live → (p : ℕ) × In p live }
    ensures wire { (plan : Contents) (s live : Set) (u : List Item) (put : ℕ → Item) →
        IsReached plan s u live → IsRound plan u live put → NoClash live put → HasOneWire live put }
    ensures bound { (plan : Contents) (s live : Set) (u : List Item) →
        HasShortMessages plan → IsReached plan s u live → length u ≤ 2560 }
    ensures whole { (plan : Contents) (s live : Set) (u : List Item) (p : ℕ) →
        Reaches plan s u live → HasEnded u → In p live → Whole plan p u }
{}

/// In a safe plan each run goes on until it has ended: no round of the live participants clashes, there is a next slot,
/// and where one of them may hear a bit, all may, and the targets may send either. An interrupt that has sent its whole
/// header is live alone: neither a controller nor another interrupt shares it.
pub fn safe_plans_go_on()
    ensures clash { (plan : Contents) (s live : Set) (u : List Item) (put : ℕ → Item) →
        IsSafe plan → IsReached plan s u live → IsRound plan u live put → NoClash live put }
    ensures next { (plan : Contents) (s live : Set) (u : List Item) →
        SendsItsMessages plan → IsSafe plan → IsReached plan s u live → (HasEnded u → ⊥) → HasNext plan u live }
    ensures answers { (plan : Contents) (s live : Set) (u : List Item) (p : ℕ) (b c : Bool) →
        SendsItsMessages plan → IsSafe plan → IsReached plan s u live → In p live → Offers plan p u (Heard b) →
        IsRound plan u live (λ _. Heard c) }
    ensures header { (plan : Contents) (s live : Set) (u : List Item) (p q : ℕ) →
        IsSafe plan → IsReached plan s u live → length u ≡ 8 → IsInterrupt plan p → In p live → In q live → q ≡ p }
{}
