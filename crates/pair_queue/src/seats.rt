// The seats of a queue.

use crate::steps::Dispatched;
use crate::tickets::{Hand, Ticket};
use crossbeam_deque::{Pass, Stealer, Worker};
use std::alloc::Global;
use std::marker::Model;

/// The seat of the thread that opened the queue. Contracts see it as its `Seat`.
#[derive(Drop)]
pub struct Owner {
    pub(crate) worker: Worker<Ticket, Global, Hand, Dispatched>,
    pub(crate) thieves: u32,
    pub(crate) ended: bool,
}

impl Model for Owner {
    ghost use Rattle.pair_queue.specs.Seats.{Seat};
    ghost use Rattle.pair_queue.specs.Hands.{IsOwner, owner_seat};

    ghost Value = { Seat };

    ghost view = { λ o. owner_seat o.worker o.ended };

    ghost invariant = { λ o. IsOwner o.worker o.thieves o.ended };
}

/// A seat for another thread. Contracts see it as its `Seat`.
#[derive(Drop)]
pub struct Thief {
    pub(crate) stealer: Stealer<Ticket, Global, Hand, Dispatched>,
    pub(crate) pass: Pass<Ticket, Hand>,
    pub(crate) ended: bool,
}

impl Model for Thief {
    ghost use Rattle.pair_queue.specs.Seats.{Seat};
    ghost use Rattle.pair_queue.specs.Hands.{IsThief, thief_seat};

    ghost Value = { Seat };

    ghost view = { λ t. thief_seat t.stealer t.pass t.ended };

    ghost invariant = { λ t. IsThief t.stealer t.pass t.ended };
}
