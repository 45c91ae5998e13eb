// What holds of the pairs of every plan. The function does nothing, and its contract is the theorem.

ghost use Rattle.std.specs.Prelude.{ℕ, ◌↔◌, Contains, AllPairs};
ghost use Rattle.plan_core.specs.Contents.{Contents};
ghost use Rattle.plan_core.specs.Lawful.{IsPair};
ghost use Rattle.plan_core.specs.Pairs.{pairs_of, IsBefore};

/// The pairs of a plan are its lawful sets of two participants, each once and in dictionary order.
pub fn pairs_are_lawful_sets_of_two()
    ensures lawful { (plan : Contents) (x y : ℕ) → Contains (pairs_of plan) (x, y) ↔ IsPair plan x y }
    ensures ordered { (plan : Contents) → AllPairs IsBefore (pairs_of plan) }
{}
