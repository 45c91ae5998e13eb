// The text of a certificate, written in blocks.

ghost use Rattle.std.specs.Prelude.{◌≡◌, ℕ, List, [], ◌++◌, if◌then◌else◌, OnOk, IfErr};
ghost use Rattle.verdicts.specs.Texts.{text_of};
ghost use Rattle.run_parts.specs.Devices.{by_parts};
ghost use Rattle.run_parts.specs.Writing.{WritesAll, WritingStops};
ghost use Rattle.decoding.specs.Parts.{IsLeft};

use run_parts::{Output, RunError, write_report};
use verdicts::CertificateLines;

/// How many bytes at most are gathered for one call to a writer: 64 KiB.
pub(crate) const BLOCK: usize = 65_536;

/// Writes the whole text. What one call writes is gathered in the block, which is empty and is not made any larger.
///
/// # Errors
///
/// `Write` where the writer failed or took no bytes, and it has then taken the first bytes of the text.
pub(crate) fn write_in_blocks<O: Output>(
    out: &mut O,
    block: &mut Vec<u8>,
    text: &CertificateLines,
) -> Result<(), RunError>
    requires { block.old.items ≡ [] }
    ensures all { OnOk result (WritesAll (by_parts O.writer) out.old (text_of text.now) out.new) }
    ensures stops { IfErr result (λ error.
        WritingStops (by_parts O.writer) out.old (text_of text.now) error out.new) }
{
    put(out, block, text.head())?;
    for k in 0..text.len() {
        put(out, block, text.line(k))?;
    }
    write_report(out, block.as_slice())
}

// Puts the piece after what the block holds, which is written first where it has no room for the piece.
fn put<O: Output>(out: &mut O, block: &mut Vec<u8>, piece: &[u8]) -> Result<(), RunError>
    ensures put { OnOk result ((start : O) (text rest : List ℕ) →
        IsLeft O.writer start text (block.old.items ++ (piece.now ++ rest)) out.old →
        IsLeft O.writer start text (block.new.items ++ rest) out.new) }
    ensures stops { IfErr result (λ error. (start : O) (text rest : List ℕ) →
        IsLeft O.writer start text (block.old.items ++ (piece.now ++ rest)) out.old →
        WritingStops (by_parts O.writer) start text error out.new) }
{
    if has_taken(block, piece) {
        return Ok(());
    }
    write_report(out, block.as_slice())?;
    block.clear();
    if has_taken(block, piece) {
        return Ok(());
    }
    write_report(out, piece)
}

// Adds the piece to what the block holds, where it has room for it: whether it had.
fn has_taken(block: &mut Vec<u8>, piece: &[u8]) -> bool
    ensures { block.new.items ≡ (if result then block.old.items ++ piece.now else block.old.items) }
{
    piece.len() <= block.capacity() - block.len() && block.extend_from_slice(piece).is_ok()
}
