// Settling a queue.

ghost use Rattle.std.specs.Prelude.{◌≡◌, ◌<◌, All, true, IfOk, IfErr};
ghost use Rattle.std.specs.List.{list_any};
ghost use Rattle.crossbeam_deque.specs.Handles.{worker_deque, worker_view};
ghost use Rattle.pair_queue.specs.Returns.{IsGivenBack, HasTakenBack};
ghost use Rattle.pair_queue.specs.Settling.{has_ended, AreAll, IsComplete, IsFault, TookEachOnce};

use crate::answers::SettleFault;
use crate::open::Deque;
use crate::seats::{Owner, Thief};
use crate::steps::{Counts, Joins};

/// All seats are back, and what they took together is 0 to n - 1, each once.
#[derive(Drop)]
pub struct Settled;

/// The seats, handed back as they were, and why the queue is not settled.
#[derive(Drop)]
pub struct Unsettled {
    pub owner: Owner,
    pub thieves: Vec<Thief>,
    pub why: SettleFault,
}

/// Takes all seats of a queue back. Missing where the number of thieves is not the one that was opened; else Left where
/// neither the owner nor a thief has found the numbers used up. All seats are of one queue, which is the caller's duty.
pub fn settle(owner: Owner, thieves: Vec<Thief>) -> Result<Settled, Unsettled>
    requires { All (λ thief. thief.queue ≡ owner.queue) thieves.items }
    ensures settled { IfOk result (λ _. TookEachOnce owner thieves.items) }
    ensures complete { IfOk result (λ _. IsComplete owner thieves.items) }
    ensures why { IfErr result (λ u. IsFault u.why owner thieves.items) }
    ensures unchanged { IfErr result (λ u. (u.owner ≡ owner) × (u.thieves.items ≡ thieves.items)) }
{
    let why = if thieves.len() != owner.thieves as usize {
        SettleFault::Missing
    } else if !owner.ended && !any_ended(&thieves) {
        SettleFault::Left
    } else {
        count(owner, thieves);
        return Ok(Settled);
    };
    Err(Unsettled {
        owner,
        thieves,
        why,
    })
}

fn any_ended(thieves: &[Thief]) -> bool
    ensures { result ≡ list_any (λ thief. thief.ended) thieves.now }
{
    thieves.iter().any(|thief| thief.ended)
}

// The owner's view then has every part, and so it learns what was taken in all.
fn count(owner: Owner, thieves: Vec<Thief>)
    requires queue { All (λ thief. thief.queue ≡ owner.queue) thieves.items }
    requires all { AreAll owner thieves.items }
    requires ended { has_ended owner thieves.items ≡ true }
    ensures { TookEachOnce owner thieves.items }
{
    let mut deque = take_back(owner, thieves);
    deque.len_as::<Counts>();
}

fn take_back(owner: Owner, thieves: Vec<Thief>) -> Deque
    requires { All (λ thief. thief.queue ≡ owner.queue) thieves.items }
    ensures { HasTakenBack owner thieves.items (worker_view result) }
{
    let Owner {
        worker: mut deque,
        thieves: _,
        ended: _,
    } = owner;
    for thief in thieves {
        give_back(&mut deque, thief);
    }
    deque
}

fn give_back(deque: &mut Deque, thief: Thief)
    requires queue { thief.queue.name ≡ (worker_deque deque.old).0 }
    requires live { (worker_view deque.old).live ≡ true }
    requires parts { 0 < (worker_view deque.old).parts }
    ensures same { worker_deque deque.new ≡ worker_deque deque.old }
    ensures view { IsGivenBack thief (worker_view deque.old) (worker_view deque.new) }
{
    let Thief {
        stealer: _,
        pass,
        ended: _,
    } = thief;
    deque.absorb::<Joins>(pass);
}
