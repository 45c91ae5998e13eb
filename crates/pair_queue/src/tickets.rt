// What lies in the deque, and what a seat knows of it.

use std::collections::LinkedList;

/// What a seat takes from the deque.
#[derive(Drop)]
pub enum Ticket {
    /// The number of a pair.
    Number(u32),
    /// After all numbers, one for each seat: who takes it has found the numbers used up.
    End,
}

/// What a seat knows of the queue, in proofs alone: no value of it is made.
pub struct Hand {
    /// No other seat has been made.
    pub alone: bool,
    /// It has not been given back.
    pub live: bool,
    /// It has taken in no other seat's takes.
    pub own: bool,
    /// How many numbers were pushed.
    pub made: u64,
    /// How many end marks were pushed: one for each seat.
    pub seats: u64,
    /// How many end marks it may take.
    pub parts: u64,
    /// How many end marks it took.
    pub ended: u64,
    /// The numbers that it took, in the order in which it took them.
    pub taken: LinkedList<u32>,
    /// It knows that all numbers below this one were taken, by whichever seat.
    pub past: u64,
}
