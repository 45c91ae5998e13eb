// What is wrong with a certificate of a plan, or with the plan.

ghost use Rattle.std.specs.Prelude.{◌<◌, length};
ghost use Rattle.plan_core.specs.PlanContents.{plan_contents};
ghost use Rattle.plan_core.specs.Pairs.{pairs_of};

use crate::breaks::{Break, break_of};
use bus_rows::Side;
use cert_check::Answer;
use certificate::{Cert, CertError, CertFault, Fault, Head, ProofLines, read_head};
use plan_core::Plan;
use std::alloc::{AllocError, Global};

/// What is wrong with a certificate, or with the plan by a certificate that is right, beside what its answer says.
#[derive(Drop)]
pub enum Mistake {
    /// This pair of the plan, of these participants, has this fault.
    Unsafe {
        pair: u32,
        participants: (u32, u32),
        fault: Fault,
    },
    /// What it says of this pair, of these participants, is not so.
    Pair {
        pair: u32,
        participants: (u32, u32),
        /// Where the line of its proof breaks off, and what both send up to there, where the certificate has proofs.
        found: Option<Break>,
        sides: Option<(Side, Side)>,
    },
    /// The plan has so many pairs, and the certificate so many lines of proofs. Its second line says that it has so
    /// many.
    Count {
        pairs: u32,
        says: Option<u32>,
        proofs: u64,
    },
    /// Its text is wrong by itself.
    Text,
}

/// What is wrong with the certificate of this text, of which this is the answer for the plan; `None` where nothing is.
///
/// # Errors
///
/// Where an allocation fails.
pub fn mistake_of(
    alloc: Global,
    plan: &Plan,
    cert: &[u8],
    answer: Answer,
) -> Result<Option<Mistake>, AllocError> {
    match answer {
        Answer::Safe => Ok(None),
        Answer::Unsafe => unsafe_pair(alloc, plan, cert),
        Answer::Wrong(CertFault::Pair(pair)) if pair < plan.pair_count() => {
            Ok(Some(misproved_pair(alloc, plan, cert, pair)?))
        }
        Answer::Wrong(CertFault::Count) => Ok(Some(miscounted(alloc, plan, cert)?)),
        Answer::Wrong(_) => Ok(Some(Mistake::Text)),
    }
}

// The pair with a fault that the certificate of this text names.
fn unsafe_pair(alloc: Global, plan: &Plan, cert: &[u8]) -> Result<Option<Mistake>, AllocError> {
    match read_head(alloc, cert) {
        Ok(Head::Flaw(pair, fault)) if pair < plan.pair_count() => Ok(Some(Mistake::Unsafe {
            pair,
            participants: plan.pair(pair),
            fault,
        })),
        Err(CertError::NoMemory) => Err(AllocError),
        _ => Ok(None),
    }
}

fn misproved_pair(alloc: Global, plan: &Plan, cert: &[u8], pair: u32) -> Result<Mistake, AllocError>
    requires { pair < length (pairs_of (plan_contents plan.now)) }
{
    let participants = plan.pair(pair);
    let broken = match proof_of(alloc, cert, pair)? {
        Some(proof) => break_of(alloc, plan, participants, &proof)?,
        None => None,
    };
    let (found, sides) = match broken {
        Some((found, sides)) => (Some(found), Some(sides)),
        None => (None, None),
    };
    Ok(Mistake::Pair {
        pair,
        participants,
        found,
        sides,
    })
}

// How many proofs the certificate has, and announces, where it is one of proofs.
fn miscounted(alloc: Global, plan: &Plan, cert: &[u8]) -> Result<Mistake, AllocError> {
    let (says, proofs) = match proofs_of(alloc, cert)? {
        Some(lines) => (Some(lines.announced()), lines_in(lines)),
        None => (None, 0),
    };
    Ok(Mistake::Count {
        pairs: plan.pair_count(),
        says,
        proofs: u64::from(proofs),
    })
}

// How many lines are left, each with its line feed.
fn lines_in(mut lines: ProofLines<'_>) -> u32 {
    for count in 0..u32::MAX {
        if !skips_line(&mut lines) {
            return count;
        }
    }
    u32::MAX
}

// The proof of the pair with this number, where the certificate has one. The lines before it are those of proofs.
fn proof_of(alloc: Global, cert: &[u8], pair: u32) -> Result<Option<Cert>, AllocError> {
    let Some(mut lines) = proofs_of(alloc, cert)? else {
        return Ok(None);
    };
    for _ in 0..pair {
        if !skips_line(&mut lines) {
            return Ok(None);
        }
    }
    next_proof(alloc, &mut lines)
}

// Takes the next line unread, if one is left that a line feed ends.
fn skips_line(lines: &mut ProofLines<'_>) -> bool {
    let Some(at) = lines.rest().iter().position(|byte| *byte == b'\n') else {
        return false;
    };
    let _ = lines.take_line(at + 1);
    true
}

// The proofs of a certificate, where it is one of proofs.
fn proofs_of(alloc: Global, cert: &[u8]) -> Result<Option<ProofLines<'_>>, AllocError> {
    match read_head(alloc, cert) {
        Ok(Head::Proofs(lines)) => Ok(Some(lines)),
        Ok(Head::Flaw(_, _)) | Err(CertError::Wrong(_)) => Ok(None),
        Err(CertError::NoMemory) => Err(AllocError),
    }
}

// The next proof, up to the first that is refused.
fn next_proof(alloc: Global, lines: &mut ProofLines<'_>) -> Result<Option<Cert>, AllocError> {
    match lines.next_proof(alloc) {
        Ok(next) => Ok(next),
        Err(CertError::Wrong(_)) => Ok(None),
        Err(CertError::NoMemory) => Err(AllocError),
    }
}
