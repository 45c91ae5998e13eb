// What holds of every play. Each function is a law: it does nothing, and its contract is the theorem.

ghost use Rattle.std.specs.Prelude.{◌≡◌, ℕ, ◌≤◌, ◌↔◌, List, [], ◌++◌, length};
ghost use Rattle.message_tree.specs.declared.items.Item.{Item};
ghost use Rattle.plan_core.specs.Lawful.{Set, In};
ghost use Rattle.plan_core.specs.Rounds.{IsWire, survivors};
ghost use Rattle.plan_core.specs.Runs.{Reaches, HasEnded, Whole};
ghost use Rattle.plays.specs.declared.puts.Put.{Put};
ghost use Rattle.plays.specs.Games.{Game, IsGame, those, answer_at};
ghost use Rattle.plays.specs.Plays.{Puts, HavePut, put_in, IsPlay, with_put};
ghost use Rattle.plays.specs.Words.{word_of, count_in, arrivals_in, shown_in, left_in};
ghost use Rattle.plays.specs.Laws.{MayPut, HasPlayFrom, Passes};

/// A play is one run of its starters: they reach the state to which it leads, it leads to no other, and where the run
/// has ended, each live participant stands whole on the wire.
pub fn plays_are_runs()
    ensures reached { (game : Game) (puts : Puts) (u : List Item) (live : Set) →
        IsPlay game puts u live → Reaches game.plan (those game.starters) u live }
    ensures one { (game : Game) (puts : Puts) (u v : List Item) (live among : Set) →
        IsPlay game puts u live → IsPlay game puts v among → (u ≡ v) × (live ≡ among) }
    ensures whole { (game : Game) (puts : Puts) (u : List Item) (live : Set) (p : ℕ) →
        IsPlay game puts u live → HasEnded u → In p live → Whole game.plan p u }
{}

/// In a safe plan there is a play before any put; each put that a participant may put gives a play again, whose wire
/// begins with the wire so far; and until the run has ended, somebody may put.
pub fn plays_go_on()
    ensures begin { (game : Game) → IsGame game → IsPlay game (λ p. []) [] (those game.starters) }
    ensures put { (game : Game) (puts : Puts) (u : List Item) (live : Set) (p : ℕ) (x : Put) →
        IsGame game → IsPlay game puts u live → MayPut game puts u live p x → HasPlayFrom game (with_put puts p x) u }
    ensures next { (game : Game) (puts : Puts) (u : List Item) (live : Set) →
        IsGame game → IsPlay game puts u live → (HasEnded u → ⊥) → (p : ℕ) × (x : Put) × MayPut game puts u live p x }
{}

/// What the word of a slot tells after a state that a play has passed: it counts no more than are live there, and just
/// as many exactly where all of them have put; then it shows the item of the wire, and how many stay live.
pub fn words_tell_slots()
    ensures bound { (game : Game) (puts : Puts) (v u : List Item) (among live : Set) →
        IsGame game → Passes game puts v among u live →
        arrivals_in (word_of game.starters puts (length v)) ≤ count_in game.starters among }
    ensures complete { (game : Game) (puts : Puts) (v u : List Item) (among live : Set) →
        IsGame game → Passes game puts v among u live →
        ((arrivals_in (word_of game.starters puts (length v)) ≡ count_in game.starters among)
        ↔ HavePut puts among (length v)) }
    ensures shown { (game : Game) (puts : Puts) (v u : List Item) (among live : Set) →
        IsGame game → Passes game puts v among u live → HavePut puts among (length v) →
        IsWire among (put_in game puts (length v))
        (shown_in (word_of game.starters puts (length v)) (answer_at game.answers (length v))) }
    ensures left { (game : Game) (puts : Puts) (v u : List Item) (among live : Set) (w : Item) →
        IsGame game → Passes game puts v among u live → HavePut puts among (length v) →
        IsWire among (put_in game puts (length v)) w →
        count_in game.starters (survivors among (put_in game puts (length v)) w)
        ≡ left_in (word_of game.starters puts (length v)) (count_in game.starters among) }
{}
