// A proof beside two messages, node by node. The recursion goes down the messages, whose depth a plan bounds: it never
// goes deeper, however deep the proof is.

ghost use Rattle.std.specs.Prelude.{◌≡◌, ◌↔◌, IsTrue};
ghost use Rattle.message_tree.specs.Trees.{frame_tree, payload_tree, tail_tree};
ghost use Rattle.certificate.specs.Proofs.{proof_tree, short};
ghost use Rattle.certificate.specs.Proves.{ProvesFrames, ProvesPayloads, ProvesTails};
ghost use Rattle.cert_check.specs.Reads.{ProvesReads};

use crate::bits::{are_split_at, frame_bits};
use certificate::Cert;
use message_tree::{Count, Frame, Payload, Tail};

/// Whether the proof proves the two frames.
#[cycle(proved)]
pub(crate) fn frames_proved(f: &Frame, g: &Frame, cert: &Cert) -> bool
    ensures { IsTrue result ↔ ProvesFrames (proof_tree cert.now) (frame_tree f.now) (frame_tree g.now) }
{
    match cert {
        Cert::Part(place) => are_split_at(&frame_bits(f), &frame_bits(g), *place),
        Cert::Byte(p, q) => match f {
            Frame::Write {
                acked: x,
                refused: r,
                ..
            } => match g {
                Frame::Write {
                    acked: y,
                    refused: s,
                    ..
                } => payloads_proved(x, y, p) && tails_proved(r, s, q),
                Frame::Read { .. } => false,
            },
            Frame::Read { .. } => false,
        },
        Cert::Read(p, q) => match f {
            Frame::Read {
                count: c,
                after: x,
                refused: r,
                ..
            } => match g {
                Frame::Read {
                    count: d,
                    after: y,
                    refused: s,
                    ..
                } => reads_proved(c, d, x, y, p) && tails_proved(r, s, q),
                Frame::Write { .. } => false,
            },
            Frame::Write { .. } => false,
        },
        Cert::Short | Cert::Again(_) | Cert::Alike => false,
    }
}

// Two reads, from the first byte on: they never end after the same number of bytes, or the proof proves what follows.
#[cycle(proved)]
fn reads_proved(c: &Count, d: &Count, x: &Tail, y: &Tail, cert: &Cert) -> bool
    ensures { IsTrue result ↔ ProvesReads (proof_tree cert.now) c.now d.now (tail_tree x.now) (tail_tree y.now) }
{
    if c.meets(d) {
        tails_proved(x, y, cert)
    } else {
        is_short(cert)
    }
}

// What follows an acknowledge of a written byte.
#[cycle(proved)]
fn payloads_proved(x: &Payload, y: &Payload, cert: &Cert) -> bool
    ensures { IsTrue result ↔ ProvesPayloads (proof_tree cert.now) (payload_tree x.now) (payload_tree y.now) }
{
    match x {
        Payload::Byte {
            bits: a,
            acked: x,
            refused: r,
        } => match y {
            Payload::Byte {
                bits: b,
                acked: y,
                refused: s,
            } => match cert {
                Cert::Part(place) => are_split_at(&a.bits(), &b.bits(), *place),
                Cert::Byte(p, q) => payloads_proved(x, y, p) && tails_proved(r, s, q),
                _ => false,
            },
            Payload::Last(_) => false,
        },
        Payload::Last(r) => match y {
            Payload::Byte { .. } => false,
            Payload::Last(s) => tails_proved(r, s, cert),
        },
    }
}

// What follows the last byte, or a refusal.
#[cycle(proved)]
fn tails_proved(r: &Tail, s: &Tail, cert: &Cert) -> bool
    ensures { IsTrue result ↔ ProvesTails (proof_tree cert.now) (tail_tree r.now) (tail_tree s.now) }
{
    match r {
        Tail::Stop => match s {
            Tail::Stop => match cert {
                Cert::Alike => true,
                _ => false,
            },
            Tail::Again(_) => false,
        },
        Tail::Again(f) => match s {
            Tail::Stop => false,
            Tail::Again(g) => match cert {
                Cert::Again(p) => frames_proved(f, g, p),
                _ => false,
            },
        },
    }
}

fn is_short(cert: &Cert) -> bool
    ensures { IsTrue result ↔ proof_tree cert.now ≡ short }
{
    match cert {
        Cert::Short => true,
        _ => false,
    }
}
