// What the host of a bench and its seats know, in proofs alone: no value of these types but a setup is made.

use message_tree::Item;
use plan_core::Plan;
use plays::Put;
use std::collections::LinkedList;

/// What a bench is told when it is opened.
#[derive(Drop)]
pub struct Setup<'a> {
    /// The plan, which is safe.
    pub plan: &'a Plan,
    /// The participants who start together, by number.
    pub starters: Vec<u32>,
    /// The bits of the targets, by slot.
    pub answers: Vec<bool>,
}

/// What a bench keeps of that. Its seats alone have the plan.
#[derive(Drop)]
pub struct Terms {
    pub starters: Vec<u32>,
    pub answers: Vec<bool>,
}

/// Who has a hand.
pub enum Role {
    /// It opened the bench.
    Host,
    /// It plays one of the starters.
    Player,
    /// Its seat was given back.
    Nobody,
}

/// What a seat has done, and what it has seen.
pub struct Told {
    /// What it has put, in order.
    pub puts: LinkedList<Put>,
    /// What it has seen of the wire.
    pub seen: LinkedList<Item>,
    /// It has lost arbitration.
    pub out: bool,
    /// How many were live after what it has seen.
    pub live: u64,
}

/// What the host or a seat knows.
pub struct Hand {
    pub plan: Option<Plan>,
    pub starters: LinkedList<u32>,
    pub answers: LinkedList<bool>,
    pub role: Role,
    /// A player's place among the starters; of the host, how many seats it has handed out.
    pub seat: u64,
    /// A player's.
    pub told: Told,
    /// The host's: the places of the seats that came back, and what they had done.
    pub back: LinkedList<(u64, Told)>,
}
