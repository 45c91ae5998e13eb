// What a dispatch log hands out, and what a seat knows of it. Each function is a law: it does nothing, and its contract
// is the theorem.

ghost use Rattle.std.specs.Prelude.{◌≡◌, ℕ, List};
ghost use mathlib.Core.Option.{some};
ghost use lib.ListN.{get_elem?};
ghost use Rattle.pair_queue.specs.declared.tickets.Hand.{Hand};
ghost use Rattle.pair_queue.specs.declared.tickets.Ticket.{Ticket};
ghost use Rattle.pair_queue.specs.Dispatch.{Event, IsPushed, IsHandedOut};
ghost use Rattle.pair_queue.specs.Rule.{AreTaken, IsDispatched};

/// Where 0 to n - 1 were pushed in order, whoever took and whenever: what was taken is 0 to k - 1 in this order, what
/// is left is k to n - 1 in this order, and each seat's own takes rise strictly.
pub fn numbers_are_handed_out_in_order()
    ensures { (log : List Event) (rest : List ℕ) (n : ℕ) → IsPushed n log rest → IsHandedOut n log rest }
{}

/// What a seat's `past` says is so at each moment at which the rule of the queue holds: each number below it was taken
/// once, by whichever seat.
pub fn numbers_below_past_were_taken()
    ensures { (items : List Ticket) (views : List Hand) (seat : ℕ) (v : Hand) →
        IsDispatched items views → get_elem? views seat ≡ some v → AreTaken v.past views }
{}
