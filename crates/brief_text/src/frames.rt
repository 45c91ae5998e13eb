// The grammar of messages, a function for each of its rules: the tree of a message.

ghost use Rattle.std.specs.Prelude.{◌≡◌, ◌≤◌, ◌+◌, ◌*◌, suc, is_some, None, IfOk, IfSome, OnOk};
ghost use Rattle.message_tree.specs.Counts.{greatest_of};
ghost use Rattle.plan_core.specs.NameBytes.{name_bytes};
ghost use Rattle.plan_core.specs.declared.limits.TheConstants.{MOST_BYTES, MOST_NODES};
ghost use Rattle.plan_text.specs.Words.{number};
ghost use Rattle.brief_text.specs.Frames.{Around, frames_at, count_at, often_at, often_by, further, opening_in, opening_at};
ghost use Rattle.brief_text.specs.Frames.{made_at, judged, only_choice, family_by, but_in, excepted_in};
ghost use Rattle.brief_text.specs.Frames.{opens_but};
ghost use Rattle.brief_text.specs.Words.{so_often, from_to, is_range};
ghost use Rattle.brief_text.specs.Places.{past, close_in, token_as};
ghost use Rattle.brief_text.specs.Standing.{brief_frame, brief_bytes, brief_tail};

use crate::boards::Board;
use crate::numbers::Digits;
use crate::sources::{Found, Source};
use crate::syntax::{
    Choice, DataSyntax, FrameSyntax, Lengths, MadeSyntax, Often, TailSyntax, Value,
};
use crate::traces::Wanted;
use crate::words::{Repetition, known_data, repetition_of};
use brief_tokens::{Keyword, Sign, Symbol};
use message_tree::{Count, Pattern};
use plan_core::Name;
use plan_core::limits::{MOST_BYTES, MOST_NODES};
use plan_text::PlanError;
use plan_text::places::Over;
use plan_text::words::count_ends;

/// How much a message may still grow at a place.
#[derive(Clone, Copy)]
pub(crate) struct Room {
    /// How many bytes a path may still have, where it is longest.
    bytes: u32,
    /// How many times what is read here stands in the message.
    copies: u32,
    ghost copies_fit: { copies ≤ MOST_NODES },
}

/// The message in which a part of it stands: what briefs have before it, and its name.
#[derive(Clone, Copy)]
pub(crate) struct Within<'a> {
    pub(crate) board: &'a Board,
    pub(crate) name: &'a Name,
}

/// How often a data byte stands, and how many more of it that are at most.
#[derive(Clone, Copy)]
struct Repeated {
    often: Often,
    more: u32,
}

/// The first token of a byte that follows from others or is a choice.
#[derive(Clone, Copy)]
pub(crate) enum MadeOpening {
    Header { reads: bool },
    PacketCode,
    Checksum,
    /// A span.
    Span { least: u8, greatest: u8 },
    /// `any` before `but`.
    AllBut,
}

impl Source<'_> {
    ghost use Rattle.brief_text.specs.Standing.{place, around, times_of, Gives, node_at, next_at, refused_at, payload_at};
    ghost use Rattle.brief_text.specs.Standing.{write_at, read_at, bytes_at, byte_after, mades_at, made_after, made_of, opening_of};
    ghost use Rattle.brief_text.specs.Standing.{choice_of, said, FindsOut};
    ghost use Rattle.plan_text.specs.Places.{Passes};

    /// The frames of a whole message.
    pub(crate) fn message_frames(&mut self, within: Within<'_>) -> Result<FrameSyntax, PlanError>
        ensures { Gives brief_frame result (frames_at (around within.entry) MOST_BYTES 1
            (record (place self.old) { nodes = 0; range = None })) (place self.new) }
    {
        self.nodes = 0;
        self.range = None;
        self.frames(
            within,
            Room {
                bytes: MOST_BYTES,
                copies: 1,
            },
        )
    }

    // frame frame*
    #[cycle(message)]
    fn frames(&mut self, within: Within<'_>, room: Room) -> Result<FrameSyntax, PlanError>
        ensures { Gives brief_frame result (frames_at (around within.entry) room.bytes room.copies (place self.old)) (place self.new) }
    {
        let token = self.next(Wanted::Frame);
        match token.symbol {
            Symbol::Keyword(Keyword::Write) => self.write(within, room),
            Symbol::Keyword(Keyword::Read) => self.read(within, room),
            _ => Err(token.unexpected()),
        }
    }

    // to refused? ( data refused? )* frame*
    #[cycle(message)]
    fn write(&mut self, within: Within<'_>, room: Room) -> Result<FrameSyntax, PlanError>
        ensures { Gives brief_frame result (write_at (around within.entry) room.bytes room.copies (place self.old)) (place self.new) }
    {
        let to = self.to(within.board, Wanted::Target)?;
        let below = self.node(room, to.line)?;
        let refused = self.refused(within, below, true)?;
        let acked = self.payload(within, below)?;
        Ok(FrameSyntax::Write {
            to: to.value,
            refused,
            acked: Box::new(self.alloc, acked)?,
        })
    }

    // to COUNT refused? frame*
    #[cycle(message)]
    fn read(&mut self, within: Within<'_>, room: Room) -> Result<FrameSyntax, PlanError>
        ensures { Gives brief_frame result (read_at (around within.entry) room.bytes room.copies (place self.old)) (place self.new) }
    {
        let to = self.to(within.board, Wanted::Target)?;
        let below = self.node(room, to.line)?;
        let count = self.count(below.bytes)?;
        let refused = self.refused(within, below, false)?;
        let after = self.following(
            within,
            Room {
                bytes: below.bytes - count.greatest() as u32,
                copies: below.copies,
            },
        )?;
        Ok(FrameSyntax::Read {
            to: to.value,
            count,
            refused,
            after,
        })
    }

    // ( data refused? )* frame*
    #[cycle(message)]
    fn payload(&mut self, within: Within<'_>, room: Room) -> Result<DataSyntax, PlanError>
        ensures { Gives brief_bytes result (payload_at (around within.entry) room.bytes room.copies (place self.old)) (place self.new) }
    {
        match self.token.symbol {
            Symbol::Word(_) => self.bytes(within, room),
            Symbol::Keyword(Keyword::Any) => self.any(within, room),
            Symbol::Keyword(Keyword::Wr) => self.mades(within, room),
            Symbol::Keyword(Keyword::Rd) => self.mades(within, room),
            Symbol::Keyword(Keyword::Pec) => self.mades(within, room),
            Symbol::Keyword(Keyword::Sum) => self.mades(within, room),
            Symbol::Span { .. } => self.mades(within, room),
            _ => Ok(DataSyntax::Last(self.following(within, room)?)),
        }
    }

    // data refused? ( data refused? )* frame*
    #[cycle(message)]
    fn bytes(&mut self, within: Within<'_>, room: Room) -> Result<DataSyntax, PlanError>
        ensures { Gives brief_bytes result (bytes_at (around within.entry) room.bytes room.copies (place self.old)) (place self.new) }
    {
        let data = self.data(within.board)?;
        self.byte(within, room, data)
    }

    // any, which is a data byte, or any but ..
    #[cycle(message)]
    fn any(&mut self, within: Within<'_>, room: Room) -> Result<DataSyntax, PlanError>
        requires { self.old.token.symbol ≡ Symbol.Keyword Keyword.Any }
        ensures { Gives brief_bytes result (payload_at (around within.entry) room.bytes room.copies (place self.old)) (place self.new) }
    {
        let line = self.next(Wanted::Data).line;
        match self.token.symbol {
            Symbol::Keyword(Keyword::But) => {
                let value = MadeOpening::AllBut;
                self.made(within, room, Found { value, line })
            }
            _ => {
                let value = Value::Spelled(Pattern::new(0, 0));
                self.byte(within, room, Found { value, line })
            }
        }
    }

    // The rest of a data byte after its first token: ( * NUMBER | * RANGE )? refused? ( data refused? )* frame*
    #[cycle(message)]
    fn byte(
        &mut self,
        within: Within<'_>,
        room: Room,
        data: Found<Value<Pattern>>,
    ) -> Result<DataSyntax, PlanError>
        ensures { Gives brief_bytes result (byte_after (around within.entry) room.bytes room.copies (said «data».value) «data».line
            (place self.old)) (place self.new) }
    {
        let first = self.node(room, data.line)?;
        let repeated = self.often(within, first)?;
        let below = first.bytes - repeated.more;
        let refused = self.refused(
            within,
            Room {
                bytes: below,
                copies: first.copies * (repeated.more + 1),
            },
            true,
        )?;
        let acked = self.payload(
            within,
            Room {
                bytes: below,
                copies: first.copies,
            },
        )?;
        Ok(DataSyntax::Byte {
            bits: data.value,
            often: repeated.often,
            refused,
            acked: Box::new(self.alloc, acked)?,
        })
    }

    // made refused? ( data refused? )* frame*, where made is: wr ( to ) | rd ( to ) | pec | sum | SPAN
    #[cycle(message)]
    fn mades(&mut self, within: Within<'_>, room: Room) -> Result<DataSyntax, PlanError>
        ensures { Gives brief_bytes result (mades_at (around within.entry) room.bytes room.copies (place self.old)) (place self.new) }
    {
        let opening = self.opening(within)?;
        self.made(within, room, opening)
    }

    // The rest of such a byte after its first token, and what follows it.
    #[cycle(message)]
    fn made(
        &mut self,
        within: Within<'_>,
        room: Room,
        opening: Found<MadeOpening>,
    ) -> Result<DataSyntax, PlanError>
        ensures { Gives brief_bytes result (made_after (around within.entry) room.bytes room.copies (opening_of opening.value)
            opening.line (place self.old)) (place self.new) }
    {
        let below = self.node(room, opening.line)?;
        let made = self.rest(within, opening.value)?;
        let refused = self.refused(within, below, true)?;
        let acked = self.payload(within, below)?;
        Ok(DataSyntax::Made {
            made,
            refused,
            acked: Box::new(self.alloc, acked)?,
        })
    }

    // The first token of such a byte, which is judged where it is a choice.
    fn opening(&mut self, within: Within<'_>) -> Result<Found<MadeOpening>, PlanError>
        ensures { FindsOut (λ it. opening_of it.value) (λ it. it.line) result (opening_at (around within.entry) (place self.old))
            (place self.new) }
    {
        let opening = self.first()?;
        self.judge(within, opening.value, opening.line)?;
        Ok(opening)
    }

    fn first(&mut self) -> Result<Found<MadeOpening>, PlanError>
        ensures { FindsOut (λ it. opening_of it.value) (λ it. it.line) result (token_as opening_in (place self.old))
            (place self.new) }
    {
        let token = self.next(Wanted::Made);
        let value = match token.symbol {
            Symbol::Keyword(Keyword::Wr) => MadeOpening::Header { reads: false },
            Symbol::Keyword(Keyword::Rd) => MadeOpening::Header { reads: true },
            Symbol::Keyword(Keyword::Pec) => MadeOpening::PacketCode,
            Symbol::Keyword(Keyword::Sum) => MadeOpening::Checksum,
            Symbol::Span { least, greatest } => MadeOpening::Span { least, greatest },
            Symbol::Keyword(Keyword::Any) => MadeOpening::AllBut,
            _ => return Err(token.unexpected()),
        };
        Ok(Found {
            value,
            line: token.line,
        })
    }

    // A choice of one token, on this line, is judged before its byte is counted.
    fn judge(
        &mut self,
        within: Within<'_>,
        opening: MadeOpening,
        line: u64,
    ) -> Result<(), PlanError>
        ensures { Passes result (judged (around within.entry) (opening_of opening) line (place self.old)) (place self.new) }
    {
        match opening {
            MadeOpening::Span { least, greatest } => {
                self.only_choice(line)?;
                self.family(within, Choice::Span { least, greatest }, line)
            }
            _ => Ok(()),
        }
    }

    // A message has one choice or one range.
    fn only_choice(&self, line: u64) -> Result<(), PlanError>
        ensures { Passes result (only_choice line (place self.now)) (place self.now) }
    {
        if self.range.is_some() {
            return Err(PlanError::Unexpected(line));
        }
        Ok(())
    }

    // A choice whose last token stands on this line makes a family.
    fn family(&mut self, within: Within<'_>, choice: Choice, line: u64) -> Result<(), PlanError>
        ensures { Passes result (family_by (around within.entry) (choice_of choice) line (place self.old)) (place self.new) }
    {
        if !choice.is_some() {
            return Err(PlanError::BadCount(line));
        }
        let numbers = choice.numbers();
        within.board.range_refusal(within.name, numbers, line)?;
        self.range = Some(numbers);
        Ok(())
    }

    // What follows the first token of such a byte.
    fn rest(&mut self, within: Within<'_>, opening: MadeOpening) -> Result<MadeSyntax, PlanError>
        ensures { Gives made_of result (made_at (around within.entry) (opening_of opening) (place self.old)) (place self.new) }
    {
        match opening {
            MadeOpening::Header { reads } => {
                self.open_address()?;
                let to = self.to(within.board, Wanted::Target)?;
                self.close_address()?;
                Ok(MadeSyntax::Header {
                    reads,
                    to: to.value,
                })
            }
            MadeOpening::PacketCode => Ok(MadeSyntax::PacketCode),
            MadeOpening::Checksum => Ok(MadeSyntax::Checksum),
            MadeOpening::Span { least, greatest } => {
                Ok(MadeSyntax::Chosen(Choice::Span { least, greatest }))
            }
            MadeOpening::AllBut => self.all_but(within),
        }
    }

    // but 0xLO..0xHI | but DATA
    fn all_but(&mut self, within: Within<'_>) -> Result<MadeSyntax, PlanError>
        ensures { Gives made_of result (made_at (around within.entry) opens_but (place self.old)) (place self.new) }
    {
        let line = self.but()?;
        self.only_choice(line)?;
        let choice = self.excepted()?;
        self.family(within, choice.value, choice.line)?;
        Ok(MadeSyntax::Chosen(choice.value))
    }

    // but, and its line
    fn but(&mut self) -> Result<u64, PlanError>
        ensures { FindsOut (λ it. tt) (λ it. it) result (token_as but_in (place self.old)) (place self.new) }
    {
        let token = self.next(Wanted::But);
        match token.symbol {
            Symbol::Keyword(Keyword::But) => Ok(token.line),
            _ => Err(token.unexpected()),
        }
    }

    // What is not chosen.
    fn excepted(&mut self) -> Result<Found<Choice>, PlanError>
        ensures { FindsOut (λ it. choice_of it.value) (λ it. it.line) result (token_as excepted_in (place self.old))
            (place self.new) }
    {
        let token = self.next(Wanted::Excepted);
        let (least, greatest) = match token.symbol {
            Symbol::Span { least, greatest } => (least, greatest),
            Symbol::Word(word) => match known_data(word) {
                Some(byte) => (byte, byte),
                None => return Err(token.unexpected()),
            },
            _ => return Err(token.unexpected()),
        };
        Ok(Found {
            value: Choice::AllBut { least, greatest },
            line: token.line,
        })
    }

    // frame*
    #[cycle(message)]
    fn following(&mut self, within: Within<'_>, room: Room) -> Result<TailSyntax, PlanError>
        ensures { Gives brief_tail result (next_at (around within.entry) room.bytes room.copies (place self.old)) (place self.new) }
    {
        match self.token.symbol {
            Symbol::Keyword(Keyword::Write | Keyword::Read) => {
                let frame = self.frames(within, room)?;
                Ok(TailSyntax::Frames(Box::new(self.alloc, frame)?))
            }
            _ => Ok(TailSyntax::Stop),
        }
    }

    // refused?, where refused is: else stop | else ( frame frame* ); after it data bytes may follow or not
    #[cycle(message)]
    fn refused(
        &mut self,
        within: Within<'_>,
        room: Room,
        bytes: bool,
    ) -> Result<TailSyntax, PlanError>
        ensures { Gives brief_tail result (refused_at (around within.entry) room.bytes room.copies (place self.old)) (place self.new) }
    {
        let Symbol::Keyword(Keyword::Else) = self.token.symbol else {
            return Ok(TailSyntax::Stop);
        };
        self.next(Wanted::Else);
        let token = self.next(Wanted::Refusal { bytes });
        match token.symbol {
            Symbol::Keyword(Keyword::Stop) => Ok(TailSyntax::Stop),
            Symbol::Sign(Sign::Open) => {
                let frame = self.frames(within, room)?;
                self.close(bytes)?;
                Ok(TailSyntax::Frames(Box::new(self.alloc, frame)?))
            }
            _ => Err(token.unexpected()),
        }
    }

    // One more node with its token on this line, and the room below it.
    fn node(&mut self, room: Room, line: u64) -> Result<Room, PlanError>
        ensures read { Gives (λ below. below.bytes) result (node_at room.bytes room.copies line (place self.old))
            (place self.new) }
        ensures less { IfOk result (λ below. room.bytes ≡ below.bytes + 1) }
        ensures copies { IfOk result (λ below. (below.copies ≡ room.copies) × (room.copies ≤ self.new.nodes)) }
    {
        if room.bytes == 0 || self.nodes + room.copies > MOST_NODES {
            self.over = Some(over(1, room.bytes, self.nodes + room.copies));
            return Err(PlanError::TooLong(line));
        }
        self.nodes += room.copies;
        Ok(Room {
            bytes: room.bytes - 1,
            copies: room.copies,
        })
    }

    // COUNT
    fn count(&mut self, room: u32) -> Result<Count, PlanError>
        ensures read { Gives (λ it. it) result (count_at room (place self.old)) (place self.new) }
        ensures fits { IfOk result (λ it. greatest_of it ≤ room) }
    {
        let token = self.next(Wanted::Count);
        let Symbol::Word(word) = token.symbol else {
            return Err(token.unexpected());
        };
        let Some(ends) = count_ends(word) else {
            return Err(token.unexpected());
        };
        let Some(count) = ends.count() else {
            return Err(PlanError::BadCount(token.line));
        };
        if count.greatest() as u32 > room {
            self.over = Some(Over::Bytes(count.greatest() as u32 - room));
            return Err(PlanError::TooLong(token.line));
        }
        Ok(count)
    }

    // ( * NUMBER | * RANGE )?, after a byte that has a node already.
    fn often(&mut self, within: Within<'_>, room: Room) -> Result<Repeated, PlanError>
        requires { room.copies ≤ self.old.nodes }
        ensures read { Gives (λ it. (times_of it.often, it.more)) result (often_at (around within.entry) room.bytes room.copies (place self.old)) (place self.new) }
        ensures fits { IfOk result (λ it. (it.more ≤ room.bytes) × (it.more ≤ 254) × (room.copies * (it.more + 1) ≤ MOST_NODES)) }
    {
        let Symbol::Sign(Sign::Star) = self.token.symbol else {
            return Ok(Repeated {
                often: Often::Times(1),
                more: 0,
            });
        };
        let ranges = self.range.is_none();
        self.next(Wanted::Star);
        let token = self.next(Wanted::Times { ranges });
        let Symbol::Word(word) = token.symbol else {
            return Err(token.unexpected());
        };
        match repetition_of(word) {
            None => Err(token.unexpected()),
            Some(Repetition::Number(number)) => self.so_often(number, room, token.line),
            Some(Repetition::Range(least, greatest)) => {
                self.ranged(within, least, greatest, room, token.line)
            }
        }
    }

    // The byte stands as often as the number on this line says.
    fn so_often(&mut self, digits: Digits<'_>, room: Room, line: u64) -> Result<Repeated, PlanError>
        requires { room.copies ≤ self.old.nodes }
        ensures read { (a : Around) → Gives (λ it. (times_of it.often, it.more)) result
            (often_by a room.bytes room.copies (so_often (number digits.entry.word.now)) line (place self.old)) (place self.new) }
        ensures fits { IfOk result (λ it. (it.more ≤ room.bytes) × (it.more ≤ 254) × (room.copies * (it.more + 1) ≤ MOST_NODES)) }
    {
        match digits.value() {
            None | Some(0) => Err(PlanError::BadCount(line)),
            Some(times) => {
                let more = times as u32 - 1;
                self.further(more, room, line)?;
                Ok(Repeated {
                    often: Often::Times(times),
                    more,
                })
            }
        }
    }

    // The byte stands as often as the range on this line says, of which a message has one.
    fn ranged(
        &mut self,
        within: Within<'_>,
        least: Digits<'_>,
        greatest: Digits<'_>,
        room: Room,
        line: u64,
    ) -> Result<Repeated, PlanError>
        requires { room.copies ≤ self.old.nodes }
        ensures read { Gives (λ it. (times_of it.often, it.more)) result
            (often_by (around within.entry) room.bytes room.copies
            (from_to (number least.entry.word.now) (number greatest.entry.word.now)) line (place self.old)) (place self.new) }
        ensures fits { IfOk result (λ it. (it.more ≤ room.bytes) × (it.more ≤ 254) × (room.copies * (it.more + 1) ≤ MOST_NODES)) }
    {
        if self.range.is_some() {
            return Err(PlanError::Unexpected(line));
        }
        let Some(range) = lengths(least, greatest) else {
            return Err(PlanError::BadCount(line));
        };
        within.board.range_refusal(within.name, range, line)?;
        self.range = Some(range);
        let more = range.greatest as u32 - 1;
        self.further(more, room, line)?;
        Ok(Repeated {
            often: Often::Ranged,
            more,
        })
    }

    // So many more bytes on a path, with the token on this line that says so.
    fn further(&mut self, more: u32, room: Room, line: u64) -> Result<(), PlanError>
        requires { more ≤ 254 }
        ensures read { Passes result (further room.bytes room.copies more line (place self.old)) (place self.new) }
        ensures fits { OnOk result ((more ≤ room.bytes) × (self.old.nodes + room.copies * more ≤ MOST_NODES)) }
    {
        let nodes = room.copies * more;
        if more > room.bytes || self.nodes + nodes > MOST_NODES {
            self.over = Some(over(more, room.bytes, self.nodes + nodes));
            return Err(PlanError::TooLong(line));
        }
        self.nodes += nodes;
        Ok(())
    }

    // ), after which data bytes may follow or not
    fn close(&mut self, bytes: bool) -> Result<(), PlanError>
        ensures { Passes result (past close_in (place self.old)) (place self.new) }
    {
        let token = self.next(Wanted::Close { bytes });
        match token.symbol {
            Symbol::Sign(Sign::Close) => Ok(()),
            _ => Err(token.unexpected()),
        }
    }
}

// How much a message is too long with so many more bytes on a path that has room for so many, and so many nodes in all.
fn over(more: u32, room: u32, nodes: u32) -> Over {
    if more > room {
        Over::Bytes(more.saturating_sub(room))
    } else {
        Over::Nodes(nodes.saturating_sub(MOST_NODES))
    }
}

// The range with these ends: its greatest is 1 to 255.
fn lengths(least: Digits<'_>, greatest: Digits<'_>) -> Option<Lengths>
    ensures form { is_some result ≡ is_range (number least.entry.word.now) (number greatest.entry.word.now) }
    ensures ends { IfSome result (λ it. (it.least ≡ number least.entry.word.now) ×
        (it.greatest ≡ number greatest.entry.word.now)) }
{
    let least = least.value()?;
    let greatest = greatest.value()?;
    if greatest >= 1 && least <= greatest {
        Some(Lengths { least, greatest })
    } else {
        None
    }
}
