// What holds of every rehearsal. Each function is a law: it does nothing, and its contract is the theorem.

ghost use Rattle.std.specs.Prelude.{◌≡◌, ℕ, Bool, List};
ghost use Rattle.message_tree.specs.declared.items.Item.{Item};
ghost use Rattle.plays.specs.Games.{Game, IsGame};
ghost use Rattle.bench_run.specs.Filled.{IsRehearsed};

/// The starters of a safe plan have one rehearsal with these answers and this fill: its wire and its winners are the same,
/// in whatever order the threads take their steps.
pub fn rehearsals_are_one()
    ensures { (game : Game) (fill : Bool) (wire other : List Item) (won others : List ℕ) → IsGame game →
        IsRehearsed game fill wire won → IsRehearsed game fill other others → (wire ≡ other) × (won ≡ others) }
{}
