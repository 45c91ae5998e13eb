// What a comparison makes of two who never clash: their proof, or nothing.

ghost use Rattle.std.specs.Prelude.{◌≡◌, ℕ, IfOk};
ghost use Rattle.certificate.specs.Proofs.{ProofTree, proof_tree};
ghost use Rattle.certificate.specs.Proofs as proof;

use certificate::Cert;
use std::alloc::{AllocError, Global};

/// What is made where two never clash, node by node from below.
pub(crate) trait Makes: Drop {
    // the proofs that it stands for
    ghost shows: { Self → ProofTree → Type 0 };

    /// Two headers or two bytes part at this place.
    fn part(place: u8) -> Self
        ensures { shows result (proof.part place) };

    /// Two reads never end after the same number of bytes.
    fn short() -> Self
        ensures { shows result proof.short };

    /// Two STOPs.
    fn alike() -> Self
        ensures { shows result proof.alike };

    /// Two write headers or two bytes, by what follows the acknowledge and what follows its absence.
    fn byte(alloc: Global, acked: Self, refused: Self) -> Result<Self, AllocError>
        ensures { IfOk result (λ made. (p q : ProofTree) → shows acked p → shows refused q →
            shows made (proof.byte p q)) };

    /// Two read headers, by what follows the last byte and what follows where the header is not acknowledged.
    fn read(alloc: Global, after: Self, refused: Self) -> Result<Self, AllocError>
        ensures { IfOk result (λ made. (p q : ProofTree) → shows after p → shows refused q →
            shows made (proof.read p q)) };

    /// Two repeated STARTs, by the frames after them.
    fn again(alloc: Global, frames: Self) -> Result<Self, AllocError>
        ensures { IfOk result (λ made. (p : ProofTree) → shows frames p → shows made (proof.again p)) };
}

impl Makes for Cert {
    ghost shows = { λ cert p. proof_tree cert ≡ p };

    fn part(place: u8) -> Cert {
        Cert::Part(place)
    }

    fn short() -> Cert {
        Cert::Short
    }

    fn alike() -> Cert {
        Cert::Alike
    }

    fn byte(alloc: Global, acked: Cert, refused: Cert) -> Result<Cert, AllocError> {
        Ok(Cert::Byte(Box::new(alloc, acked)?, Box::new(alloc, refused)?))
    }

    fn read(alloc: Global, after: Cert, refused: Cert) -> Result<Cert, AllocError> {
        Ok(Cert::Read(Box::new(alloc, after)?, Box::new(alloc, refused)?))
    }

    fn again(alloc: Global, frames: Cert) -> Result<Cert, AllocError> {
        Ok(Cert::Again(Box::new(alloc, frames)?))
    }
}

/// No proof is made, and no memory taken.
#[derive(Drop)]
pub(crate) struct Nothing;

impl Makes for Nothing {
    ghost shows = { λ _ _. Unit {0} };

    fn part(_place: u8) -> Nothing {
        Nothing
    }

    fn short() -> Nothing {
        Nothing
    }

    fn alike() -> Nothing {
        Nothing
    }

    fn byte(_alloc: Global, _acked: Nothing, _refused: Nothing) -> Result<Nothing, AllocError> {
        Ok(Nothing)
    }

    fn read(_alloc: Global, _after: Nothing, _refused: Nothing) -> Result<Nothing, AllocError> {
        Ok(Nothing)
    }

    fn again(_alloc: Global, _frames: Nothing) -> Result<Nothing, AllocError> {
        Ok(Nothing)
    }
}
