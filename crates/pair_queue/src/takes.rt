// Taking a number.

ghost use Rattle.std.specs.Prelude.{◌≡◌, ◌≤◌, length, true, IfSome};
ghost use Rattle.pair_queue.specs.Seats.{after_answer, after_take, IsFirstLeft, IsInOrder, IsNext, IsUsedUp, IfPair};

use crate::answers::Take;
use crate::seats::{Owner, Thief};
use crate::steps::Takes;
use crate::tickets::Ticket;
use crossbeam_deque::Steal;

impl Owner {
    /// The first number that nobody has taken. None where all numbers had been taken at one moment of the call: the
    /// owner has then ended, and each later answer is None. Either way the owner's `past` tells how far the numbers were
    /// taken by then, by whichever seat.
    pub fn take(&mut self) -> Option<u32>
        ensures queue { self.new.queue ≡ self.old.queue }
        ensures seat { self.new ≡ after_answer result self.old }
        ensures number { IfSome result (λ i. IsNext i self.old) }
        ensures first { IfSome result (λ i. IsFirstLeft i self.old self.new) }
        ensures used_up { result ≡ None → IsUsedUp self.new }
        ensures ended { self.old.ended ≡ true → result ≡ None }
        ensures order { IsInOrder self.new }
        ensures count { length self.new.taken ≤ self.new.queue.numbers }
    {
        if self.ended {
            return None;
        }
        match self.worker.pop_as::<Takes>() {
            Some(Ticket::Number(i)) => Some(i),
            Some(Ticket::End) => {
                self.ended = true;
                None
            }
            None => unreachable!(),
        }
    }
}

impl Thief {
    /// The first number that nobody has taken, or why there is none. Pair and Empty tell by the thief's `past` how far
    /// the numbers were taken by then, by whichever seat.
    pub fn take(&mut self) -> Take
        ensures queue { self.new.queue ≡ self.old.queue }
        ensures seat { self.new ≡ after_take result self.old }
        ensures number { IfPair result (λ i. IsNext i self.old) }
        ensures first { IfPair result (λ i. IsFirstLeft i self.old self.new) }
        ensures used_up { result ≡ Take.Empty → IsUsedUp self.new }
        ensures ended { self.old.ended ≡ true → result ≡ Take.Empty }
        ensures order { IsInOrder self.new }
        ensures count { length self.new.taken ≤ self.new.queue.numbers }
    {
        if self.ended {
            return Take::Empty;
        }
        match self.stealer.steal_as::<Takes>(&mut self.pass) {
            Steal::Success(Ticket::Number(i)) => Take::Pair(i),
            Steal::Success(Ticket::End) => {
                self.ended = true;
                Take::Empty
            }
            Steal::Retry => Take::Busy,
            Steal::Empty => unreachable!(),
        }
    }
}
