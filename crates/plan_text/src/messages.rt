// The grammar of messages, a function for each of its rules. Room is how many bytes a path may still have.

ghost use Rattle.std.specs.Prelude.{◌≡◌, ◌≤◌, ◌+◌, IfOk};
ghost use Rattle.message_tree.specs.Counts.{greatest_of};
ghost use Rattle.message_tree.specs.Trees.{frame_tree, payload_tree, tail_tree};
ghost use Rattle.plan_core.specs.declared.limits.TheConstants.{MOST_BYTES};
ghost use Rattle.plan_text.specs.Reader.{token_as, address_in, frame_at, count_at, else_at};

use crate::errors::PlanError;
use crate::places::{Expected, Over};
use crate::sources::Source;
use crate::symbols::{Keyword, Symbol, Token};
use crate::words::{address, count_ends, pattern};
use message_tree::{Address, Count, Frame, Pattern, Payload, Tail};
use plan_core::limits::{MOST_BYTES, MOST_NODES};

impl Source<'_> {
    ghost use Rattle.plan_text.specs.Places.{place, before, Passes, Gives, Finds, node_at, tail_at, payload_at};
    ghost use Rattle.plan_text.specs.Places.{write_at, read_at, byte_at, refusal_at};

    /// The frame of a whole message.
    pub(crate) fn message_frame(&mut self) -> Result<Frame, PlanError>
        ensures { Gives frame_tree result (frame_at MOST_BYTES (record (place self.old) { nodes = 0 }))
            (place self.new) }
    {
        self.nodes = 0;
        self.frame(MOST_BYTES)
    }

    // write PAT7 payload else tail | read PAT7 COUNT tail else tail
    #[cycle(message)]
    fn frame(&mut self, room: u32) -> Result<Frame, PlanError>
        ensures { Gives frame_tree result (frame_at room (place self.old)) (place self.new) }
    {
        let token = self.next(Expected::Frame);
        match token.symbol {
            Symbol::Keyword(Keyword::Write) => self.write(room),
            Symbol::Keyword(Keyword::Read) => self.read(room),
            _ => Err(token.unexpected()),
        }
    }

    // PAT7 payload else tail
    #[cycle(message)]
    fn write(&mut self, room: u32) -> Result<Frame, PlanError>
        ensures { Gives frame_tree result (write_at room (place self.old)) (place self.new) }
    {
        let header = self.header()?;
        let below = self.node(room, header.line)?;
        let acked = self.payload(below)?;
        let refused = self.refusal(below)?;
        Ok(Frame::Write {
            address: header.address,
            acked: Box::new(self.alloc, acked)?,
            refused,
        })
    }

    // PAT7 COUNT tail else tail
    #[cycle(message)]
    fn read(&mut self, room: u32) -> Result<Frame, PlanError>
        ensures { Gives frame_tree result (read_at room (place self.old)) (place self.new) }
    {
        let header = self.header()?;
        let below = self.node(room, header.line)?;
        let count = self.count(below)?;
        let after = self.tail(below - count.greatest() as u32)?;
        let refused = self.refusal(below)?;
        Ok(Frame::Read {
            address: header.address,
            count,
            after,
            refused,
        })
    }

    // PAT8 payload else tail | tail
    #[cycle(message)]
    fn payload(&mut self, room: u32) -> Result<Payload, PlanError>
        ensures { Gives payload_tree result (payload_at room (place self.old)) (place self.new) }
    {
        match self.tokens.data_byte() {
            Some(byte) => self.byte(byte.bits, byte.line, room),
            None => self.payload_by_token(room),
        }
    }

    // The same, by its first token.
    #[cycle(message)]
    #[inline(never)]
    fn payload_by_token(&mut self, room: u32) -> Result<Payload, PlanError>
        ensures { Gives payload_tree result (payload_at room (place self.old)) (place self.new) }
    {
        let token = self.next(Expected::Payload);
        match token.symbol {
            Symbol::Word(word) => {
                let Some(bits) = pattern(word) else {
                    return Err(token.unexpected());
                };
                self.byte(bits, token.line, room)
            }
            _ => Ok(Payload::Last(self.tail_from(token, room)?)),
        }
    }

    // The payload that begins with this data byte on this line.
    #[cycle(message)]
    #[inline(always)]
    fn byte(&mut self, bits: Pattern, line: u64, room: u32) -> Result<Payload, PlanError>
        ensures { Gives payload_tree result (byte_at room bits line (place self.old)) (place self.new) }
    {
        let below = self.node(room, line)?;
        let acked = self.payload(below)?;
        let refused = self.refusal(below)?;
        Ok(Payload::Byte {
            bits,
            acked: Box::new(self.alloc, acked)?,
            refused,
        })
    }

    // else tail
    #[cycle(message)]
    fn refusal(&mut self, room: u32) -> Result<Tail, PlanError>
        ensures { Gives tail_tree result (refusal_at room (place self.old)) (place self.new) }
    {
        if self.tokens.else_stop() {
            return Ok(Tail::Stop);
        }
        self.else_word()?;
        self.tail(room)
    }

    // stop | again frame
    #[cycle(message)]
    fn tail(&mut self, room: u32) -> Result<Tail, PlanError>
        ensures { Gives tail_tree result (tail_at room (place self.old)) (place self.new) }
    {
        let token = self.next(Expected::Tail);
        self.tail_from(token, room)
    }

    // The tail that begins with this token.
    #[cycle(message)]
    fn tail_from(&mut self, token: Token<'_>, room: u32) -> Result<Tail, PlanError>
        ensures { Gives tail_tree result (tail_at room (before token.entry (place self.old))) (place self.new) }
    {
        match token.symbol {
            Symbol::Keyword(Keyword::Stop) => Ok(Tail::Stop),
            Symbol::Keyword(Keyword::Again) => {
                let frame = self.frame(room)?;
                Ok(Tail::Again(Box::new(self.alloc, frame)?))
            }
            _ => Err(token.unexpected()),
        }
    }

    // PAT7
    fn header(&mut self) -> Result<Header, PlanError>
        ensures { Finds (λ it. it.address) (λ it. it.line) result (token_as address_in (place self.old))
            (place self.new) }
    {
        let token = self.next(Expected::Address);
        let Symbol::Word(word) = token.symbol else {
            return Err(token.unexpected());
        };
        let Some(address) = address(word) else {
            return Err(token.unexpected());
        };
        Ok(Header {
            address,
            line: token.line,
        })
    }

    // One more node with its token on this line, and the room below it.
    fn node(&mut self, room: u32, line: u64) -> Result<u32, PlanError>
        ensures read { Gives (λ below. below) result (node_at room line (place self.old)) (place self.new) }
        ensures less { IfOk result (λ below. room ≡ below + 1) }
    {
        if room == 0 || self.nodes >= MOST_NODES {
            self.over = Some(if room == 0 {
                Over::Bytes(1)
            } else {
                Over::Nodes(1)
            });
            return Err(PlanError::TooLong(line));
        }
        self.nodes += 1;
        Ok(room - 1)
    }

    // COUNT
    fn count(&mut self, room: u32) -> Result<Count, PlanError>
        ensures read { Gives (λ it. it) result (count_at room (place self.old)) (place self.new) }
        ensures fits { IfOk result (λ it. greatest_of it ≤ room) }
    {
        let ranges = self.tokens.has_dots();
        let token = self.next(Expected::Count { ranges });
        let Symbol::Word(word) = token.symbol else {
            return Err(token.unexpected());
        };
        let Some(ends) = count_ends(word) else {
            return Err(token.unexpected());
        };
        let Some(count) = ends.count() else {
            return Err(PlanError::BadCount(token.line));
        };
        if count.greatest() as u32 > room {
            self.over = Some(Over::Bytes(count.greatest() as u32 - room));
            return Err(PlanError::TooLong(token.line));
        }
        Ok(count)
    }

    // else
    fn else_word(&mut self) -> Result<(), PlanError>
        ensures { Passes result (else_at (place self.old)) (place self.new) }
    {
        let token = self.next(Expected::Else);
        match token.symbol {
            Symbol::Keyword(Keyword::Else) => Ok(()),
            _ => Err(token.unexpected()),
        }
    }
}

// An address, with the line of its token.
#[derive(Clone, Copy)]
struct Header {
    address: Address,
    line: u64,
}
