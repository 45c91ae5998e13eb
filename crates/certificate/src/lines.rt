// The proofs of a certificate text, one at a time.

ghost use Rattle.std.specs.Prelude.{◌≡◌, ◌≢◌, ℕ, ◌<◌, ◌≤◌, ◌+◌, ◌^◌, true, false, List, ◌++◌, length, take, IfOk, IfErr};
ghost use Rattle.std.specs.Prelude.{IfSome, IfNone, OnErr};
ghost use Rattle.certificate.specs.declared.errors.CertFault.TheVariants.{Count};
ghost use Rattle.certificate.specs.Proofs.{ProofTree, proof_tree};
ghost use Rattle.certificate.specs.Texts.{SpellsLine};

use crate::errors::{CertError, CertFault};
use crate::sources::Source;
use crate::values::Cert;
use std::alloc::Global;

/// The line of the first proof.
pub(crate) const FIRST_PROOF: u64 = 3;

/// Where the reading of a certificate text stands after whole lines, apart from what is left of the text.
#[derive(Clone, Copy)]
pub struct Standing {
    // the number of proofs that the text announces, and of those that were read
    number: u32,
    seen: u64,
}

impl Standing {
    /// The line that is next.
    pub(crate) fn line(&self) -> u64 {
        self.seen.saturating_add(FIRST_PROOF)
    }
}

/// What is left of a certificate text whose proofs are read one at a time.
#[derive(Drop)]
pub struct ProofLines<'a> {
    source: Source<'a>,
    // the number of proofs that the text announces, and of those that were read
    number: u32,
    seen: u64,
    ghost seen_fit: { seen + length source.rest.now < 2 ^ 64 },
}

impl<'a> ProofLines<'a> {
    ghost use Rattle.certificate.specs.Places.{place};
    ghost use Rattle.certificate.specs.Reading.{AddsTree, AddsProof, EndsHere, RefusedHere, announced, bytes_left, text_left};
    ghost use Rattle.certificate.specs.Reading.{ReadSoFar, Stands};

    /// What is left after the first two lines, which announce this number of proofs.
    pub(crate) fn new(source: Source<'a>, number: u32) -> Self
        ensures source { result.source ≡ source.entry }
        ensures number { result.number ≡ number }
        ensures seen { result.seen ≡ 0 }
    {
        ProofLines {
            source,
            number,
            seen: 0,
        }
    }

    /// The next proof, or None at the end of the text where it has as many proofs as it announces.
    ///
    /// # Errors
    ///
    /// C1 and C3 with the line of the next proof, C2 at the end of the text, `NoMemory` where an allocation fails for
    /// the proof before it is refused itself. What is left is then as it was.
    pub fn next_proof(&mut self, alloc: Global) -> Result<Option<Cert>, CertError>
        ensures read { IfOk result (λ next. IfSome next (λ proof. AddsProof proof self.old self.new)) }
        ensures less { IfOk result (λ next. IfSome next (λ proof. bytes_left self.new < bytes_left self.old)) }
        ensures end { IfOk result (λ next. IfNone next (EndsHere self.old)) }
        ensures refused { IfErr result (λ e. RefusedHere self.old e) }
        ensures unchanged { OnErr result (self.new ≡ self.old) }
    {
        match self.next_line(alloc)? {
            Some((proof, _)) => Ok(Some(proof)),
            None => Ok(None),
        }
    }

    /// The same, and the line of the proof, with its line feed.
    ///
    /// # Errors
    ///
    /// As those of `next_proof`.
    pub fn next_line(&mut self, alloc: Global) -> Result<Option<(Cert, &'a [u8])>, CertError>
        ensures read { IfOk result (λ next. IfSome next (λ it. AddsProof it.0 self.old self.new)) }
        ensures spelled { IfOk result (λ next. IfSome next (λ it. SpellsLine it.1.now (proof_tree it.0))) }
        ensures less { IfOk result (λ next. IfSome next (λ it. bytes_left self.new < bytes_left self.old)) }
        ensures end { IfOk result (λ next. IfNone next (EndsHere self.old)) }
        ensures ended { IfOk result (λ next. IfNone next (self.new ≡ self.old)) }
        ensures refused { IfErr result (λ e. RefusedHere self.old e) }
        ensures unchanged { OnErr result (self.new ≡ self.old) }
    {
        if self.source.is_at_end() {
            self.end()?;
            return Ok(None);
        }
        let mut source = self.source;
        let proof = source.proof_line(alloc)?;
        let line = self.source.until(&source);
        self.source = source;
        self.seen += 1;
        Ok(Some((proof, line)))
    }

    /// Takes the next line where these are its bytes, with its line feed, and does not read them again: whatever proof they
    /// spell is then the next one. Else nothing is taken.
    pub fn takes_again(&mut self, line: &[u8]) -> bool
        ensures read { result ≡ true → (tree : ProofTree) → SpellsLine line.now tree → AddsTree tree self.old self.new }
        ensures less { result ≡ true → bytes_left self.new < bytes_left self.old }
        ensures unchanged { result ≡ false → self.new ≡ self.old }
    {
        if line.is_empty() {
            return false;
        }
        let Some(source) = self.source.after_line(line) else {
            return false;
        };
        self.source = source;
        self.seen += 1;
        true
    }

    /// How many proofs the text announces in its second line.
    pub fn announced(&self) -> u32
        ensures { result ≡ announced self.now }
    {
        self.number
    }

    /// The text that is left.
    pub fn rest(&self) -> &'a [u8]
        ensures { result.now ≡ text_left self.now }
    {
        self.source.rest()
    }

    /// Takes the next line, which has so many bytes with its line feed, and does not read them: whatever proof they spell
    /// is then the next one.
    pub fn take_line(&mut self, size: usize) -> &'a [u8]
        requires some { 0 < size }
        requires within { size ≤ bytes_left self.old }
        ensures line { result.now ≡ take size (text_left self.old) }
        ensures read { (tree : ProofTree) →
            SpellsLine (take size (text_left self.old)) tree → AddsTree tree self.old self.new }
        ensures less { bytes_left self.new < bytes_left self.old }
    {
        let source = self.source.past_line(size);
        let line = self.source.until(&source);
        self.source = source;
        self.seen += 1;
        line
    }

    /// Where reading stands before what is left.
    pub fn standing(&self) -> Standing
        ensures { (text : List ℕ) (trees : List ProofTree) → ReadSoFar text trees self.now →
            (before : List ℕ) × Stands before trees result × (text ≡ before ++ text_left self.now) }
    {
        Standing {
            number: self.number,
            seen: self.seen,
        }
    }

    /// Goes on where reading stands, with what is left of the text, as far as it is known. None comes only where the text
    /// has 2 to the power 63 bytes or more.
    pub fn resume(standing: Standing, rest: &'a [u8]) -> Option<Self>
        ensures left { IfSome result (λ left. text_left left ≡ rest.now) }
        ensures read { IfSome result (λ left. (before : List ℕ) (trees : List ProofTree) →
            Stands before trees standing → ReadSoFar (before ++ rest.now) trees left) }
        ensures none { IfNone result ((before : List ℕ) (trees : List ProofTree) →
            Stands before trees standing → 2 ^ 63 ≤ length before + length rest.now) }
    {
        let Some(line) = standing.seen.checked_add(FIRST_PROOF) else {
            return None;
        };
        let Some(source) = Source::at_line(rest, line) else {
            return None;
        };
        Some(ProofLines {
            source,
            number: standing.number,
            seen: standing.seen,
        })
    }

    // At the end of the text.
    fn end(&self) -> Result<(), CertError>
        ensures counted { IfOk result (λ it. self.now.seen ≡ self.now.number) }
        ensures refused { IfErr result (λ e. (e ≡ CertError.Wrong Count) × (self.now.seen ≢ self.now.number)) }
    {
        if self.seen != u64::from(self.number) {
            return Err(CertError::Wrong(CertFault::Count));
        }
        Ok(())
    }
}
