// A place for what each two participants send.
#![tactic(auto, unfolding(crate::specs::SenderPlaces::place))]

ghost use Rattle.std.specs.Prelude.{◌≡◌, ℕ, ◌<◌, length, slice_get, Some};
ghost use Rattle.plan_core.specs.Pairs.{pairs_of};
ghost use Rattle.plan_core.specs.Participants.{participant_count};
ghost use Rattle.plan_core.specs.SenderPlaces.{sender_count, sender_number, place, place_count};

use crate::plans::{Participant, Plan};

impl Plan {
    ghost use Rattle.plan_core.specs.PlanContents.{plan_contents};

    /// The number of places: one for each two of the messages and interrupts.
    pub fn sender_places(&self) -> usize
        ensures { result ≡ place_count (plan_contents self.now) }
    {
        self.senders() * self.senders()
    }

    /// The place of what the two participants of pair `i` send. Pairs of the same senders have the same place.
    pub fn sender_place(&self, i: u32) -> usize
        requires { i < length (pairs_of (plan_contents self.now)) }
        ensures place { (x y : ℕ) → slice_get (pairs_of (plan_contents self.now)) i ≡ Some (x, y) →
            result ≡ place (plan_contents self.now) x y }
        ensures within { result < place_count (plan_contents self.now) }
    {
        let (x, y) = self.pair(i);
        self.sender(x) * self.senders() + self.sender(y)
    }

    // The number of the messages and interrupts.
    fn senders(&self) -> usize
        ensures value { result ≡ sender_count (plan_contents self.now) }
        ensures few { result < 512 }
    {
        self.messages() as usize + self.interrupts() as usize
    }

    // The number of what participant `p` sends: messages have theirs, and the interrupts are counted after them.
    fn sender(&self, p: u32) -> usize
        requires { p < participant_count (plan_contents self.now) }
        ensures value { result ≡ sender_number (plan_contents self.now) p }
        ensures within { result < sender_count (plan_contents self.now) }
    {
        match self.participant(p) {
            Participant::Sending { message, .. } => message as usize,
            Participant::Interrupt(k) => self.messages() as usize + k as usize,
        }
    }
}
