// The grammar of proofs.

ghost use Rattle.std.specs.Prelude.{◌<◌, OnOk, box_value};
ghost use Rattle.certificate.specs.Proofs.{proof_tree};

use crate::errors::CertError;
use crate::places::{Expected, Last, Next};
use crate::sources::Source;
use crate::values::Cert;
use std::alloc::Global;

/// The nodes on one path of a proof.
const PATH_NODES: u32 = 512;

/// The token of a node.
#[derive(Clone, Copy)]
pub(crate) enum Token {
    /// `P0` to `P7`.
    Part(u8),
    /// `R`
    Short,
    /// `.`
    Alike,
    /// `S`, before one proof.
    Again,
    /// `B`, before two proofs.
    Byte,
    /// `D`, before two proofs.
    Read,
}

impl Source<'_> {
    ghost use Rattle.certificate.specs.Places.{place, unread, Gives};
    ghost use Rattle.certificate.specs.Reader.{bit_place_at, token_at, node_at, spaced, proof_at, line_at};

    /// A proof and the end of its line.
    #[tactic(auto, unfolding(crate::specs::Reader::line_at))]
    pub(crate) fn proof_line(&mut self, alloc: Global) -> Result<Cert, CertError>
        ensures read { Gives proof_tree result (line_at (place self.old)) (place self.new) }
        ensures less { OnOk result (unread self.new < unread self.old) }
    {
        let proof = self.proof(alloc, PATH_NODES)?;
        let end = Expected::LineFeed(Last::Proof);
        self.asked = self.asks(end, end);
        self.this(b'\n')?;
        Ok(proof)
    }

    // A proof. There is room for so many nodes on a path.
    #[cycle(proof)]
    fn proof(&mut self, alloc: Global, room: u32) -> Result<Cert, CertError>
        ensures { Gives proof_tree result (proof_at room (place self.old)) (place self.new) }
    {
        let token = self.token()?;
        let Some(room) = room.checked_sub(1) else {
            return Err(self.too_deep());
        };
        self.node(alloc, token, room)
    }

    // What a node with this token has below it, where there is room for so many nodes on a path.
    #[cycle(proof)]
    fn node(&mut self, alloc: Global, token: Token, room: u32) -> Result<Cert, CertError>
        ensures { Gives proof_tree result
            (node_at (spaced (proof_at room)) token (place self.old)) (place self.new) }
    {
        match token {
            Token::Part(place) => Ok(Cert::Part(place)),
            Token::Short => Ok(Cert::Short),
            Token::Alike => Ok(Cert::Alike),
            Token::Again => {
                let frames = self.below(alloc, room)?;
                Ok(Cert::Again(frames))
            }
            Token::Byte => {
                let acked = self.below(alloc, room)?;
                let refused = self.below(alloc, room)?;
                Ok(Cert::Byte(acked, refused))
            }
            Token::Read => {
                let after = self.below(alloc, room)?;
                let refused = self.below(alloc, room)?;
                Ok(Cert::Read(after, refused))
            }
        }
    }

    // A space, and a proof.
    #[cycle(proof)]
    fn below(&mut self, alloc: Global, room: u32) -> Result<Box<Cert>, CertError>
        ensures { Gives (λ it. proof_tree (box_value it)) result
            (spaced (proof_at room) (place self.old)) (place self.new) }
    {
        self.asked = self.asks(Expected::Space(Next::Proof), Expected::Node);
        self.this(b' ')?;
        let proof = self.proof(alloc, room)?;
        Ok(Box::new(alloc, proof)?)
    }

    // The token of a node.
    fn token(&mut self) -> Result<Token, CertError>
        ensures { Gives (λ it. it) result (token_at (place self.old)) (place self.new) }
    {
        self.asked = self.asks(Expected::Node, Expected::Bit);
        let refusal = self.format();
        match self.take()? {
            b'P' => Ok(Token::Part(self.bit_place()?)),
            b'R' => Ok(Token::Short),
            b'.' => Ok(Token::Alike),
            b'S' => Ok(Token::Again),
            b'B' => Ok(Token::Byte),
            b'D' => Ok(Token::Read),
            _ => Err(refusal),
        }
    }

    // The place of a bit, `0` to `7`.
    fn bit_place(&mut self) -> Result<u8, CertError>
        ensures { Gives (λ k. k) result (bit_place_at (place self.old)) (place self.new) }
    {
        let refusal = self.format();
        match self.take()? {
            digit @ b'0'..=b'7' => Ok(digit - b'0'),
            _ => Err(refusal),
        }
    }
}
