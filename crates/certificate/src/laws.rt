// What a proof is worth, how a text is read, and that it has one reading. Each function is a law: it does nothing, and
// its contract is the theorem.

ghost use Rattle.std.specs.Prelude.{◌≡◌, ◌⊎◌, ℕ, List, Ok};
ghost use Rattle.message_tree.specs.Texts.{Sender, SenderText};
ghost use Rattle.certificate.specs.Proofs.{ProofTree};
ghost use Rattle.certificate.specs.Laws.{NeverClash, OneKind};
ghost use Rattle.certificate.specs.Proves.{Proves};
ghost use Rattle.certificate.specs.declared.errors.CertFault.{CertFault};
ghost use Rattle.certificate.specs.Certificates.{Certificate};
ghost use Rattle.certificate.specs.Reader.{Said, text_said};
ghost use Rattle.certificate.specs.Refusals.{First, Says};
ghost use Rattle.certificate.specs.Texts.{Spells};

/// Where a proof proves two participants, no two of their texts go on, after the same beginning, with items that clash.
pub fn proved_pairs_never_clash()
    ensures { (proof : ProofTree) (s t : Sender) → Proves proof s t → NeverClash (SenderText s) (SenderText t) }
{}

/// After one wire, a participant may send items of one kind only.
pub fn a_sender_offers_one_kind()
    ensures { (s : Sender) → OneKind (SenderText s) }
{}

/// The definition by which a text is read tells what the grammar spells, and tells all that it spells.
pub fn texts_are_read_as_spelled()
    ensures read { (text : List ℕ) (said : Said) → text_said text ≡ Ok said → Says text said }
    ensures spelled { (text : List ℕ) (said : Said) → Says text said → text_said text ≡ Ok said }
{}

/// A text spells exactly one certificate and has no first refusal, or it has exactly one first refusal and spells no
/// certificate.
pub fn texts_have_one_reading()
    ensures one_value { (text : List ℕ) (c d : Certificate) → Spells text c → Spells text d → c ≡ d }
    ensures one_refusal { (text : List ℕ) (e f : CertFault) → First text e → First text f → e ≡ f }
    ensures not_both { (text : List ℕ) (c : Certificate) (e : CertFault) → Spells text c → First text e → ⊥ }
    ensures one_of_both { (text : List ℕ) → ((c : Certificate) × Spells text c) ⊎ ((e : CertFault) × First text e) }
{}
