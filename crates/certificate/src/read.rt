// Reading of certificate texts, whole or proof by proof.

ghost use Rattle.std.specs.Prelude.{◌≡◌, ℕ, List, [], map, Ok, IfOk, IfErr};
ghost use Rattle.certificate.specs.declared.errors.CertFault.{CertFault};
ghost use Rattle.certificate.specs.Certificates.{Certificate, certificate_of, proofs};
ghost use Rattle.certificate.specs.Reading.{Fails, HeadRead, ReadSoFar, AnswersValue, AnswersFault};
ghost use Rattle.certificate.specs.Places.{place, Refuses};
ghost use Rattle.certificate.specs.Proofs.{proof_tree};
ghost use Rattle.certificate.specs.Reader.{pairs_at, flaw_at, faulty, start};
ghost use Rattle.certificate.specs.Refusals.{First};
ghost use Rattle.certificate.specs.Texts.{Spells};

use crate::errors::CertError;
use crate::lines::ProofLines;
use crate::places::{Expected, Last, Next};
use crate::sources::Source;
use crate::values::{Cert, CertText, Fault};
use std::alloc::Global;

/// Reads a certificate text, or answers its first refusal.
///
/// # Errors
///
/// C1 to C3 as `CertFault` has them: the first of C1 and C3 in the order of the text, with its line, else C2.
/// `NoMemory` where an allocation fails before another refusal is met. `Pair` is never answered.
pub fn read_cert(alloc: Global, text: &[u8]) -> Result<CertText, CertError>
    // What is answered is right.
    ensures spelled { IfOk result (λ it. Spells text.now (certificate_of it)) }
    ensures refused { IfErr result (λ e. Fails text.now e) }
    // What is right is answered, unless an allocation fails.
    ensures values { (value : Certificate) → Spells text.now value → AnswersValue result value }
    ensures refusals { (fault : CertFault) → First text.now fault → AnswersFault result fault }
{
    read(alloc, text)
}

// The same, by the first two clauses.
fn read(alloc: Global, text: &[u8]) -> Result<CertText, CertError>
    ensures spelled { IfOk result (λ it. Spells text.now (certificate_of it)) }
    ensures refused { IfErr result (λ e. Fails text.now e) }
{
    match read_head(alloc, text)? {
        Head::Proofs(lines) => Ok(CertText::Proofs(all_proofs(alloc, lines)?)),
        Head::Flaw(pair, fault) => Ok(CertText::Flaw(pair, fault)),
    }
}

// All proofs.
fn all_proofs(alloc: Global, mut lines: ProofLines<'_>) -> Result<Vec<Cert>, CertError>
    ensures read { IfOk result (λ it. (text : List ℕ)
        → ReadSoFar text [] lines.entry → Spells text (proofs (map proof_tree it.items))) }
    ensures refused { IfErr result (λ e. (text : List ℕ) → ReadSoFar text [] lines.entry → Fails text e) }
{
    let mut proofs = Vec::new(alloc);
    while let Some(proof) = lines.next_proof(alloc)? {
        proofs.push(proof)?;
    }
    Ok(proofs)
}

/// The front of a certificate text.
#[derive(Drop)]
pub enum Head<'a> {
    /// The proofs follow, each on a line of its own.
    Proofs(ProofLines<'a>),
    /// The fault of the pair with this number: the whole certificate.
    Flaw(u32, Fault),
}

/// Reads the first two lines of a certificate text.
///
/// # Errors
///
/// C1 at the line where these two lines break the form, or at the line after a fault where the text goes on after it.
/// `NoMemory` where an allocation fails for the wire of a fault before that.
pub fn read_head(alloc: Global, text: &[u8]) -> Result<Head<'_>, CertError>
    ensures read { IfOk result (λ head. HeadRead text.now head) }
    ensures refused { IfErr result (λ e. Fails text.now e) }
{
    let mut source = Source::new(text);
    front(alloc, &mut source)
}

/// The same from a source that stands at the beginning of a text. Where that is refused, it knows the place.
#[tactic(auto, using(crate::proofs::EitherText::fails_from), unfolding(crate::specs::Reader::text_said))]
pub(crate) fn front<'a>(alloc: Global, source: &mut Source<'a>) -> Result<Head<'a>, CertError>
    ensures read { (text : List ℕ) → place source.old ≡ start text → IfOk result (λ head. HeadRead text head) }
    ensures refused { (text : List ℕ) → place source.old ≡ start text → IfErr result (λ e. Fails text e) }
{
    source.asked = source.asks(Expected::Version, Expected::LineFeed(Last::Version));
    source.each(b"cert 1\n")?;
    source.asked = source.asks(Expected::Form, Expected::Space(Next::Number));
    let refusal = source.format();
    match source.take()? {
        b'p' => Ok(Head::Proofs(proof_lines(source)?)),
        b'f' => {
            let (pair, fault) = flaw(alloc, source)?;
            Ok(Head::Flaw(pair, fault))
        }
        _ => Err(refusal),
    }
}

// `airs`, and how many there are.
#[tactic(auto, unfolding(crate::specs::Reader::pairs_at))]
fn proof_lines<'a>(source: &mut Source<'a>) -> Result<ProofLines<'a>, CertError>
    ensures read { IfOk result (λ left. pairs_at (place source.old) ≡ Ok (left.number, place left.source)) }
    ensures none_seen { IfOk result (λ left. left.seen ≡ 0) }
    ensures refused { IfErr result (Refuses (pairs_at (place source.old))) }
{
    source.each(b"airs ")?;
    source.asked = source.asks(Expected::Number, Expected::LineFeed(Last::Pairs));
    let number = source.number(b'\n')?;
    Ok(ProofLines::new(*source, number))
}

// `ault`, its pair, its wire and its kinds, and the end of the text.
#[tactic(auto, unfolding(crate::specs::Reader::flaw_at))]
fn flaw(alloc: Global, source: &mut Source<'_>) -> Result<(u32, Fault), CertError>
    ensures read { IfOk result (λ it. flaw_at (place source.old)
        ≡ Ok (faulty it.0 it.1.wire.items it.1.first it.1.second)) }
    ensures refused { IfErr result (Refuses (flaw_at (place source.old))) }
{
    source.each(b"ault ")?;
    source.asked = source.asks(Expected::Number, Expected::Space(Next::Wire));
    let pair = source.number(b' ')?;
    let fault = source.fault(alloc)?;
    source.asked = source.asks(Expected::End, Expected::End);
    if !source.is_at_end() {
        return Err(source.format());
    }
    Ok((pair, fault))
}
