// The rule of the queue, and what each kind of step tells the seat that steps.

use crate::tickets::{Hand, Ticket};
use crossbeam_deque::protocol::{Join, Lesson, Outcome, Protocol, Split};

/// The rule: the deque and the seats' lists are what a legal dispatch log leaves and hands out.
pub struct Dispatched;

impl Protocol<Ticket, Hand> for Dispatched {
    ghost use Rattle.pair_queue.specs.Rule.{IsDispatched};
    ghost use Rattle.pair_queue.specs.Steps.{opening, spent};

    ghost holds = { IsDispatched };

    ghost first = { opening };

    ghost guest = { spent };
}

/// The owner pushes a ticket.
pub struct Pushes;

impl Outcome<Ticket, Hand> for Pushes {
    ghost use Rattle.pair_queue.specs.Steps.{Pushed};

    ghost then = { Pushed };
}

/// A seat takes a ticket. A seat that may still take an end mark always finds one.
pub struct Takes;

impl Outcome<Ticket, Hand> for Takes {
    ghost use Rattle.std.specs.Prelude.{◌≤◌};
    ghost use Rattle.pair_queue.specs.Steps.{Took};

    ghost then = { Took };

    ghost empty = { λ v. v.parts ≤ v.ended };
}

/// The owner makes another seat.
pub struct Cuts;

impl Split<Hand> for Cuts {
    ghost use Rattle.pair_queue.specs.Steps.{kept, cut};

    ghost left = { kept };

    ghost right = { cut };
}

/// A seat is given back to the owner.
pub struct Joins;

impl Join<Hand> for Joins {
    ghost use Rattle.pair_queue.specs.Steps.{joined, spent};

    ghost both = { joined };

    ghost spent = { spent };
}

/// The owner, who has taken in all other seats, learns what they took in all.
pub struct Counts;

impl Lesson<Ticket, Hand> for Counts {
    ghost use Rattle.pair_queue.specs.Steps.{TookAll};

    ghost fact = { λ v items. TookAll v };
}
