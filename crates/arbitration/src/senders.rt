// The outcomes of two participants, by what they send.

ghost use Rattle.message_tree.specs.Texts.{Sender, SenderText};
ghost use Rattle.arbitration.specs.Choices.{AreChoices};
ghost use Rattle.arbitration.specs.Frames.{AreFrames, trees_of};
ghost use Rattle.arbitration.specs.Senders.{IsSent};
ghost use Rattle.arbitration.specs.Ways.{AreOutcomes, header_of};

use crate::bits::Choices;
use crate::frames::Frames;
use crate::spans::Outcomes;
use message_tree::{Address, Bit};

/// What a participant sends: the message with this number, or an interrupt from this address.
#[derive(Clone, Copy)]
pub(crate) enum Sent {
    Message(u32),
    Interrupt(Address),
}

/// What two participants who send this may come to when they start together and alone. An interrupt never ends by a STOP,
/// and loses or wins in its header.
pub(crate) fn outcomes(frames: &Frames, first: Sent, second: Sent) -> Outcomes
    requires frames { AreFrames frames.now.entries.items }
    requires first { (s : Sender) × IsSent (trees_of frames.now.entries.items) first s }
    requires second { (s : Sender) × IsSent (trees_of frames.now.entries.items) second s }
    ensures { (s t : Sender) → IsSent (trees_of frames.now.entries.items) first s →
        IsSent (trees_of frames.now.entries.items) second t → AreOutcomes (SenderText s) (SenderText t) result }
{
    match first {
        Sent::Message(m) => match second {
            Sent::Message(n) => frames.numbers(m, n),
            Sent::Interrupt(_) => {
                first_header(frames, first).partings(first_header(frames, second))
            }
        },
        Sent::Interrupt(_) => first_header(frames, first).partings(first_header(frames, second)),
    }
}

// The choices in the bits of the first header.
fn first_header(frames: &Frames, sent: Sent) -> Choices
    requires frames { AreFrames frames.now.entries.items }
    requires sent { (s : Sender) × IsSent (trees_of frames.now.entries.items) sent s }
    ensures { (s : Sender) → IsSent (trees_of frames.now.entries.items) sent s → AreChoices (header_of s) result }
{
    match sent {
        Sent::Message(n) => frames.entries[n as usize].frame.header(),
        Sent::Interrupt(address) => Choices::of_header(&address, Bit::One),
    }
}
