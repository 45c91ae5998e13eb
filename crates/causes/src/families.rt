// Families: who stands on one side of a cause.

ghost use Rattle.std.specs.Prelude.{◌≡◌, ◌<◌, length};
ghost use Rattle.plan_core.specs.Participants.{participant_count};
ghost use Rattle.plan_core.specs.PlanContents.{plan_contents};
ghost use Rattle.causes.specs.Families.{family_at, is_several};

use plan_core::{Participant, Plan};

/// Who may stand on one side of a cause.
#[derive(Clone, Copy, PartialEq, Eq, Hash)]
pub enum Family {
    /// Messages: the number of the first of them, and how many they are.
    Messages { first: u32, count: u32 },
    /// An interrupt, by number.
    Interrupt(u32),
}

impl Family {
    /// Whether it has several messages.
    pub fn is_several(&self) -> bool
        ensures { result ≡ is_several self.now }
    {
        match self {
            Family::Messages { count, .. } => *count > 1,
            Family::Interrupt(_) => false,
        }
    }
}

/// The family of a participant, where these are the families of the messages.
pub(crate) fn family_at(plan: &Plan, families: &[Family], x: u32) -> Family
    requires families { length families.now ≡ length (plan_contents plan.now).messages }
    requires within { x < participant_count (plan_contents plan.now) }
    ensures { result ≡ family_at (plan_contents plan.now) families.now x }
{
    match plan.participant(x) {
        Participant::Sending { message, .. } => families[message as usize],
        Participant::Interrupt(k) => Family::Interrupt(k),
    }
}
