// What two participants send compared, from the START on.

ghost use Rattle.plan_core.specs.Senders.{what_is_sent};
ghost use Rattle.pair_walk.specs.Compare.{ComparesSenders};

use crate::compare::compare_frames;
use crate::halts::Halt;
use crate::headers::{interrupt_and_message, message_and_interrupt, two_interrupts};
use crate::makes::Makes;
use plan_core::Sends;
use std::alloc::Global;

/// What two participants send, from their first headers on.
pub(crate) fn compare_starts<M: Makes>(
    alloc: Global,
    s: &Sends<'_>,
    t: &Sends<'_>,
) -> Result<M, Halt>
    ensures { ComparesSenders M.shows (what_is_sent s.now) (what_is_sent t.now) result }
{
    match s {
        Sends::Message(f) => match t {
            Sends::Message(g) => compare_frames(alloc, f, g),
            Sends::Interrupt(b) => message_and_interrupt(alloc, f, b),
        },
        Sends::Interrupt(a) => match t {
            Sends::Message(g) => interrupt_and_message(alloc, a, g),
            Sends::Interrupt(b) => two_interrupts(alloc, a, b),
        },
    }
}
