// What a message means: names are looked up, repetitions are written out, and a family is its messages.

ghost use Rattle.std.specs.Prelude.{[], ◌≡◌, ◌<◌, ◌≤◌, ◌++◌, length, map, None, codes, decimal, false, IfOk, IfSome, OnOk};
ghost use Rattle.std.specs.Map.{lookup};
ghost use Rattle.std.specs.Str.{bytes_eq};
ghost use Rattle.std.specs.String.{string_bytes};
ghost use Rattle.message_tree.specs.Trees.{frame_tree, payload_tree, tail_tree};
ghost use Rattle.brief_text.specs.Codes.{at_start};
ghost use Rattle.plan_core.specs.Building.{with_message};
ghost use Rattle.plan_core.specs.NameBytes.{name_bytes};
ghost use Rattle.brief_text.specs.Judging.{is_family};
ghost use Rattle.brief_text.specs.Drafts.{frame_on, bytes_on, tail_on, made_bits, after_made, how_often, member_name, members};
ghost use Rattle.brief_text.specs.Drafts.{with_messages, with_made, messages_meant, family_meant, lengths};
ghost use Rattle.brief_text.specs.Standing.{brief_frame, brief_bytes, brief_tail, made_of, times_of, draft};

use crate::boards::Board;
use crate::codes::{Path, header_bits};
use crate::groups::InPlace;
use crate::naming::{copied as named_alike, spelled};
use crate::syntax::{DataSyntax, FrameSyntax, Lengths, MadeSyntax, NameFound, Often, TailSyntax};
use message_tree::{Frame, Pattern, Payload, Tail};
use origins::Spot;
use plan_core::Name;
use plan_core::limits::MOST_MESSAGES;
use std::alloc::{AllocError, Global};

/// A message of the plan.
#[derive(Drop)]
pub(crate) struct Message {
    name: Name,
    frame: Frame,
}

impl Board {
    ghost use Rattle.brief_text.specs.Meanings.{message_of};
    ghost use Rattle.brief_text.specs.Standing.{with_device};

    /// Adds a message, or the messages of a family, whose name no other family has.
    pub(crate) fn add_messages(
        &mut self,
        named: NameFound,
        range: Option<Lengths>,
        frames: &FrameSyntax,
    ) -> Result<(), AllocError>
        requires { IfSome range (λ it. is_family (draft self.old) (name_bytes named.name) ≡ false) }
        ensures { OnOk result (draft self.new ≡
            with_made (draft self.old) (name_bytes named.name) range (brief_frame frames.now) []) }
    {
        let messages = self.messages_meant(None, &named.name, range, frames)?;
        self.push_messages(messages, named.line)?;
        match range {
            None => Ok(()),
            Some(range) => self.families.add(named.name, range),
        }
    }

    /// The messages that these frames make, with this device in the place of a group.
    pub(crate) fn messages_meant(
        &self,
        in_place: Option<InPlace<'_>>,
        name: &Name,
        range: Option<Lengths>,
        frames: &FrameSyntax,
    ) -> Result<Vec<Message>, AllocError>
        ensures { IfOk result (λ it. map message_of it.items ≡
            messages_meant (with_device (draft self.now) in_place.entry) (name_bytes name.now) range
            (brief_frame frames.now)) }
    {
        match range {
            None => self.one_meant(in_place, name, frames),
            Some(range) => self.family_meant(in_place, name, range, frames),
        }
    }

    fn one_meant(
        &self,
        in_place: Option<InPlace<'_>>,
        name: &Name,
        frames: &FrameSyntax,
    ) -> Result<Vec<Message>, AllocError>
        ensures { IfOk result (λ it. map message_of it.items ≡
            messages_meant (with_device (draft self.now) in_place.entry) (name_bytes name.now) None
            (brief_frame frames.now)) }
    {
        let mut messages = Vec::new(self.alloc);
        let frame = self.frame(in_place, 1, frames, Path::at_start())?;
        let name = named_alike(self.alloc, name)?;
        messages.push(Message { name, frame })?;
        Ok(messages)
    }

    fn family_meant(
        &self,
        in_place: Option<InPlace<'_>>,
        name: &Name,
        range: Lengths,
        frames: &FrameSyntax,
    ) -> Result<Vec<Message>, AllocError>
        ensures { IfOk result (λ it. map message_of it.items ≡
            family_meant (with_device (draft self.now) in_place.entry) (name_bytes name.now) range
            (brief_frame frames.now)) }
    {
        let mut messages = Vec::new(self.alloc);
        for k in 0..count(range) {
            let n = range.least as u32 + k;
            let frame = self.frame(in_place, n, frames, Path::at_start())?;
            let name = member(self.alloc, name, n)?;
            messages.push(Message { name, frame })?;
        }
        Ok(messages)
    }

    /// These messages go into the plan. They stand on this line.
    pub(crate) fn push_messages(
        &mut self,
        messages: Vec<Message>,
        line: u64,
    ) -> Result<(), AllocError>
        ensures { OnOk result (draft self.new ≡ record (draft self.old) {
          plan = with_messages (draft self.old).plan (map message_of messages.items);
        }) }
    {
        let mut left = messages;
        while !left.is_empty() {
            let message = left.remove(0);
            self.push_message(message, line)?;
        }
        Ok(())
    }

    // A message goes into the plan. None is refused: all that a plan asks has been judged where it stands.
    #[tactic(auto, using(crate::proofs::MessageLemmas::one_more_message))]
    fn push_message(&mut self, message: Message, line: u64) -> Result<(), AllocError>
        ensures { OnOk result (draft self.new ≡ record (draft self.old) {
          plan = with_message (draft self.old).plan (name_bytes message.name) (frame_tree message.frame);
        }) }
    {
        if self.messages >= MOST_MESSAGES {
            return Err(AllocError);
        }
        let file = self.file;
        self.spots.push(Spot { file, line })?;
        match self.builder.message(message.name, message.frame) {
            Ok(()) => {
                self.messages += 1;
                Ok(())
            }
            Err(_) => Err(AllocError),
        }
    }

    /// The messages of a family.
    pub(crate) fn members(&self, name: &Name, range: Lengths) -> Result<Vec<Name>, AllocError>
        ensures { IfOk result (λ it. map name_bytes it.items ≡ members (name_bytes name.now) range) }
    {
        let mut members = Vec::new(self.alloc);
        for k in 0..count(range) {
            members.push(member(self.alloc, name, range.least as u32 + k)?)?;
        }
        Ok(members)
    }

    #[cycle(meaning)]
    fn frame(
        &self,
        in_place: Option<InPlace<'_>>,
        n: u32,
        frame: &FrameSyntax,
        path: Path,
    ) -> Result<Frame, AllocError>
        ensures { IfOk result (λ it. frame_tree it ≡ frame_on (with_device (draft self.now) in_place.entry) n
            (brief_frame frame.now) path) }
    {
        match frame {
            FrameSyntax::Write { to, refused, acked } => {
                let address = self.address_with(in_place, to);
                let path = path.after(&header_bits(false, &address));
                let acked = self.data(in_place, n, acked, path)?;
                let refused = self.tail(in_place, n, refused, path)?;
                Ok(Frame::Write {
                    address,
                    acked: Box::new(self.alloc, acked)?,
                    refused,
                })
            }
            FrameSyntax::Read {
                to,
                count,
                refused,
                after,
            } => {
                let address = self.address_with(in_place, to);
                let path = path.after(&header_bits(true, &address));
                let after = self.tail(in_place, n, after, Path::unknown())?;
                let refused = self.tail(in_place, n, refused, path)?;
                Ok(Frame::Read {
                    address,
                    count: *count,
                    after,
                    refused,
                })
            }
        }
    }

    #[cycle(meaning)]
    fn data(
        &self,
        in_place: Option<InPlace<'_>>,
        n: u32,
        data: &DataSyntax,
        path: Path,
    ) -> Result<Payload, AllocError>
        ensures { IfOk result (λ it. payload_tree it ≡ bytes_on (with_device (draft self.now) in_place.entry) n
            (brief_bytes «data».now) path) }
    {
        match data {
            DataSyntax::Byte {
                bits,
                often,
                refused,
                acked,
            } => {
                let times = often.times(n);
                let bits = self.bits(bits);
                let mut payload = self.data(in_place, n, acked, path.after_all(times, &bits))?;
                for k in 0..times {
                    let refused = self.tail(
                        in_place,
                        n,
                        refused,
                        path.after_all(times - k, &bits),
                    )?;
                    payload = Payload::Byte {
                        bits,
                        acked: Box::new(self.alloc, payload)?,
                        refused,
                    };
                }
                Ok(payload)
            }
            DataSyntax::Made {
                made,
                refused,
                acked,
            } => {
                let bits = self.made_bits(in_place, n, made, path);
                let path = made.after(path, &bits);
                let acked = self.data(in_place, n, acked, path)?;
                let refused = self.tail(in_place, n, refused, path)?;
                Ok(Payload::Byte {
                    bits,
                    acked: Box::new(self.alloc, acked)?,
                    refused,
                })
            }
            DataSyntax::Last(tail) => Ok(Payload::Last(self.tail(in_place, n, tail, path)?)),
        }
    }

    #[cycle(meaning)]
    fn tail(
        &self,
        in_place: Option<InPlace<'_>>,
        n: u32,
        tail: &TailSyntax,
        path: Path,
    ) -> Result<Tail, AllocError>
        ensures { IfOk result (λ it. tail_tree it ≡ tail_on (with_device (draft self.now) in_place.entry) n
            (brief_tail tail.now) path) }
    {
        match tail {
            TailSyntax::Stop => Ok(Tail::Stop),
            TailSyntax::Frames(frame) => {
                let frame = self.frame(in_place, n, frame, path)?;
                Ok(Tail::Again(Box::new(self.alloc, frame)?))
            }
        }
    }

    // A byte that follows from others, or is a choice.
    fn made_bits(
        &self,
        in_place: Option<InPlace<'_>>,
        n: u32,
        made: &MadeSyntax,
        path: Path,
    ) -> Pattern
        ensures { result ≡ made_bits (with_device (draft self.now) in_place.entry) n (made_of made.now) path }
    {
        match made {
            MadeSyntax::Header { reads, to } => header_bits(
                *reads,
                &self.address_with(in_place, to),
            ),
            MadeSyntax::PacketCode => path.packet_code(),
            MadeSyntax::Checksum => path.checksum(),
            MadeSyntax::Chosen(choice) => choice.bits(n),
        }
    }
}

impl MadeSyntax {
    ghost use Rattle.brief_text.specs.Standing.{made_of};

    // The path after this byte, of these bits.
    fn after(&self, path: Path, bits: &Pattern) -> Path
        ensures { result ≡ after_made (made_of self.now) path bits.now }
    {
        let after = path.after(bits);
        match self {
            MadeSyntax::Checksum => after.summed(),
            _ => after,
        }
    }
}

impl Often {
    // How often the byte stands where that of the range stands n times.
    fn times(self, n: u32) -> u32
        ensures { result ≡ how_often n (times_of self) }
    {
        match self {
            Often::Times(times) => times as u32,
            Often::Ranged => n,
        }
    }
}

/// How many messages a family has.
pub(crate) fn count(range: Lengths) -> u32
    ensures count { result ≡ length (lengths range) }
    ensures small { result ≤ 256 }
{
    (range.greatest as u32 + 1).saturating_sub(range.least as u32)
}

// The name of the message of a family that has n bytes.
fn member(alloc: Global, name: &Name, n: u32) -> Result<Name, AllocError>
    ensures { IfOk result (λ it. name_bytes it ≡ member_name (name_bytes name.now) n) }
{
    spelled(alloc, member_text(alloc, name, n)?.as_str())
}

/// The text of the name of the message with `n` bytes in the family with this name, which may be too long for a name.
///
/// # Errors
///
/// Where an allocation fails.
pub fn member_text(alloc: Global, name: &Name, n: u32) -> Result<String, AllocError>
    ensures { IfOk result (λ it. string_bytes it ≡ member_name (name_bytes name.now) n) }
{
    let mut text = String::from_str(alloc, name.as_str())?;
    write!(text, "_{n}")?;
    Ok(text)
}
