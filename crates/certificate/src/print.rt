// The spelling of a certificate.

ghost use Rattle.std.specs.Prelude.{◌≡◌, ◌+◌, ◌++◌, ◌∷◌, [], IfOk, OnOk, string_bytes, codes, decimal, map, length};
ghost use Rattle.std.specs.List.{flat_map};
ghost use Rattle.message_tree.specs.Symbols.{wire_text};
ghost use Rattle.certificate.specs.Certificates.{certificate_of};
ghost use Rattle.certificate.specs.Proofs.{proof_tree};
ghost use Rattle.certificate.specs.Printing.{nodes, pending_nodes, pending_text, trees_of};
ghost use Rattle.certificate.specs.Texts.{Spells, IsPrintable, cert_text, proofs_text, flaw_text, proof_line};
ghost use Rattle.certificate.specs.Texts.{proof_text};

use crate::values::{Cert, CertText, Fault};
use message_tree::Item;
use std::alloc::{AllocError, Global};

/// The one spelling of a certificate. Places of bits and wires are written as they are.
///
/// Reading it gives the certificate back where a text can have it: each place is 0 to 7, no path of a proof is longer
/// than 512 nodes, a wire is not empty and has no STOP and no claim, and there are at most 4,294,967,295 proofs.
pub fn print_cert(alloc: Global, cert: &CertText) -> Result<Vec<u8>, AllocError>
    ensures spelling { IfOk result (λ text. text.items ≡ cert_text (certificate_of cert.now)) }
    ensures read_back { IsPrintable (certificate_of cert.now)
        → IfOk result (λ text. Spells text.items (certificate_of cert.now)) }
{
    print(alloc, cert)
}

/// The line of a proof, with its line feed: what `print_cert` writes of it.
pub fn print_line(alloc: Global, proof: &Cert) -> Result<Vec<u8>, AllocError>
    ensures { IfOk result (λ text. text.items ≡ proof_line (proof_tree proof.now)) }
{
    let mut text = String::new(alloc);
    line(alloc, &mut text, proof)?;
    text.shrink_to_fit();
    Ok(text.into_bytes())
}

/// Adds the symbols of a wire, as certificates and reports have them.
pub fn push_wire(text: &mut String, wire: &[Item]) -> Result<(), AllocError>
    ensures { OnOk result (string_bytes text.new ≡ string_bytes text.old ++ wire_text wire.now) }
{
    for item in wire {
        text.push(item.symbol())?;
    }
    Ok(())
}

// The spelling.
fn print(alloc: Global, cert: &CertText) -> Result<Vec<u8>, AllocError>
    ensures { IfOk result (λ text. text.items ≡ cert_text (certificate_of cert.now)) }
{
    let mut text = String::new(alloc);
    text.push_str("cert 1\n")?;
    match cert {
        CertText::Proofs(proofs) => {
            write!(text, "pairs {}\n", proofs.len())?;
            lines(alloc, &mut text, proofs)?;
        }
        CertText::Flaw(pair, fault) => flaw(&mut text, *pair, fault)?,
    }
    Ok(text.into_bytes())
}

// Each proof on a line of its own.
fn lines(alloc: Global, text: &mut String, proofs: &[Cert]) -> Result<(), AllocError>
    ensures { OnOk result (string_bytes text.new
        ≡ string_bytes text.old ++ flat_map proof_line (map proof_tree proofs.now)) }
{
    for proof in proofs {
        line(alloc, text, proof)?;
    }
    Ok(())
}

fn flaw(text: &mut String, pair: u32, fault: &Fault) -> Result<(), AllocError>
    ensures { OnOk result (string_bytes text.new
        ≡ string_bytes text.old ++ flaw_text pair fault.now.wire.items fault.now.first fault.now.second) }
{
    write!(text, "fault {pair} ")?;
    push_wire(text, &fault.wire)?;
    write!(text, " {} {}\n", fault.first.word(), fault.second.word())
}

// A proof on a line of its own. What is still to be written is kept in a list, so that a long path needs no deep calls.
fn line(alloc: Global, text: &mut String, proof: &Cert) -> Result<(), AllocError>
    ensures { OnOk result (string_bytes text.new ≡ string_bytes text.old ++ proof_line (proof_tree proof.now)) }
{
    let mut pending = Vec::new(alloc);
    node(text, &mut pending, proof)?;
    while let Some(next) = pending.pop() {
        text.push(' ')?;
        node(text, &mut pending, next)?;
    }
    text.push('\n')
}

// The token of a node. The proofs below it come before what was pending, the first of them last in the list.
fn node<'a>(
    text: &mut String,
    pending: &mut Vec<&'a Cert>,
    proof: &'a Cert,
) -> Result<(), AllocError>
    ensures writes { OnOk result (string_bytes text.new ++ pending_text (trees_of pending.new.items)
        ≡ string_bytes text.old ++ (proof_text (proof_tree proof.now) ++ pending_text (trees_of pending.old.items))) }
    ensures less { OnOk result (pending_nodes (trees_of pending.new.items) + 1
        ≡ pending_nodes (trees_of pending.old.items) + nodes (proof_tree proof.now)) }
{
    match proof {
        Cert::Part(place) => write!(text, "P{place}"),
        Cert::Short => text.push('R'),
        Cert::Alike => text.push('.'),
        Cert::Again(frames) => {
            text.push('S')?;
            pending.push(frames)?;
            Ok(())
        }
        Cert::Byte(acked, refused) => {
            text.push('B')?;
            pending.push(refused)?;
            pending.push(acked)?;
            Ok(())
        }
        Cert::Read(after, refused) => {
            text.push('D')?;
            pending.push(refused)?;
            pending.push(after)?;
            Ok(())
        }
    }
}
