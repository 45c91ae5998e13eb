// What a participant of a plan sends.

use crate::plans::{Participant, Plan};
use message_tree::{Address, Frame};

/// What a participant sends after the START.
#[derive(Clone, Copy, Drop)]
pub enum Sends<'a> {
    /// A controller's message.
    Message(&'a Frame),
    /// The address of a target that interrupts: its seven bits are known. A 1 follows it, as in the header of a read.
    Interrupt(Address),
}

impl Plan {
    ghost use Rattle.std.specs.Prelude.{◌≡◌, ◌<◌, Some};
    ghost use Rattle.plan_core.specs.Participants.{participant_count, sender_at};
    ghost use Rattle.plan_core.specs.PlanContents.{plan_contents};
    ghost use Rattle.plan_core.specs.Senders.{what_is_sent};

    /// What participant `i` sends.
    pub fn sends(&self, i: u32) -> Sends<'_>
        requires { i < participant_count (plan_contents self.now) }
        ensures { sender_at (plan_contents self.now) i ≡ Some (what_is_sent result) }
    {
        match self.participant(i) {
            Participant::Sending { message, .. } => Sends::Message(self.message(message)),
            Participant::Interrupt(k) => {
                Sends::Interrupt(Address::new(0x7f, self.interrupt_address(k)))
            }
        }
    }
}
