// Opening a queue.

ghost use Rattle.std.specs.Prelude.{◌≡◌, ◌+◌, ◌-◌, ◌<◌, ◌≤◌, false, IfOk, OnOk, replicate};
ghost use Rattle.crossbeam_deque.specs.Handles.{worker_capacity, worker_deque, worker_view};
ghost use Rattle.pair_queue.specs.Opening.{IsFilled, IsSeating};
ghost use Rattle.pair_queue.specs.Hands.{seat_of};
ghost use Rattle.pair_queue.specs.Seats.{fresh};
ghost use Rattle.pair_queue.specs.Steps.{cut};

use crate::seats::{Owner, Thief};
use crate::steps::{Cuts, Dispatched, Pushes};
use crate::tickets::{Hand, Ticket};
use crossbeam_deque::Worker;
use std::alloc::{AllocError, Global};

/// The most numbers of a queue.
pub const MOST_NUMBERS: u32 = 1_000_000;

/// The most thieves of a queue.
pub const MOST_THIEVES: u32 = 7;

pub(crate) type Deque = Worker<Ticket, Global, Hand, Dispatched>;

/// The numbers 0 to n - 1, the seat of their owner, and seats for so many thieves, who have all taken nothing yet. What
/// they need for their takes is reserved here: the takes need no memory.
pub fn open_queue(alloc: Global, n: u32, thieves: u32) -> Result<(Owner, Vec<Thief>), AllocError>
    requires numbers { n ≤ MOST_NUMBERS }
    requires thieves { thieves ≤ MOST_THIEVES }
    ensures queue { IfOk result (λ r. (r.0.queue.numbers ≡ n) × (r.0.queue.thieves ≡ thieves)) }
    ensures owner { IfOk result (λ r. r.0 ≡ fresh r.0.queue) }
    ensures thieves { IfOk result (λ r. r.1.items ≡ replicate thieves (fresh r.0.queue)) }
{
    let mut deque = filled(alloc, n, thieves + 1)?;
    let mut others = Vec::new(alloc);
    for _ in 0..thieves {
        others.push(thief(&mut deque)?)?;
    }
    let owner = Owner {
        worker: deque,
        thieves,
        ended: false,
    };
    Ok((owner, others))
}

fn filled(alloc: Global, n: u32, seats: u32) -> Result<Deque, AllocError>
    requires numbers { n ≤ MOST_NUMBERS }
    requires seats { seats ≤ MOST_THIEVES + 1 }
    ensures { IfOk result (λ w. IsFilled n seats w) }
{
    let mut deque = Deque::fifo_as(alloc, (n + seats) as usize)?;
    for i in 0..n {
        push_number(&mut deque, i);
    }
    for ends in 0..seats {
        push_end(&mut deque, n, ends);
    }
    Ok(deque)
}

// There is room for one more number.
fn push_number(deque: &mut Deque, i: u32)
    requires room { i < worker_capacity deque.old }
    requires filled { IsFilled i 0 deque.old }
    ensures room { worker_capacity deque.old ≤ worker_capacity deque.new }
    ensures filled { IsFilled (i + 1) 0 deque.new }
{
    match deque.push_as::<Pushes>(Ticket::Number(i)) {
        Ok(()) => {}
        Err(_) => unreachable!(),
    }
}

// There is room for one more end mark, after n numbers and so many end marks.
fn push_end(deque: &mut Deque, n: u32, ends: u32)
    requires room { n + ends < worker_capacity deque.old }
    requires filled { IsFilled n ends deque.old }
    ensures room { worker_capacity deque.old ≤ worker_capacity deque.new }
    ensures filled { IsFilled n (ends + 1) deque.new }
{
    match deque.push_as::<Pushes>(Ticket::End) {
        Ok(()) => {}
        Err(_) => unreachable!(),
    }
}

// One more seat, which gets one part of the owner's.
fn thief(deque: &mut Deque) -> Result<Thief, AllocError>
    requires seating { let v = worker_view deque.old in IsSeating v.made v.seats v.parts deque.old }
    requires parts { 1 < (worker_view deque.old).parts }
    ensures same { worker_deque deque.new ≡ worker_deque deque.old }
    ensures seating { let v = worker_view deque.old in OnOk result (IsSeating v.made v.seats (v.parts - 1) deque.new) }
    ensures thief { IfOk result (λ t. t ≡ seat_of (worker_deque deque.old).0 (cut (worker_view deque.old)) false) }
{
    let stealer = deque.stealer()?;
    let pass = deque.another::<Cuts>();
    Ok(Thief {
        stealer,
        pass,
        ended: false,
    })
}
