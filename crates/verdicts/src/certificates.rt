// The certificate of a plan, with one proof held at a time.

ghost use Rattle.std.specs.Prelude.{◌≡◌, IfOk};
ghost use Rattle.certificate.specs.Certificates.{flaw};
ghost use Rattle.certificate.specs.Texts.{cert_text};
ghost use Rattle.plan_core.specs.PlanContents.{plan_contents};
ghost use Rattle.plan_core.specs.Faults.{IsSafe};
ghost use Rattle.verdicts.specs.Certificates.{IsCertificateText};
ghost use Rattle.verdicts.specs.Faults.{AreFaults, fault_list};
ghost use Rattle.verdicts.specs.Texts.{text_of};

use crate::lines::{heading, proof_lines};
use crate::listed::Faults;
use crate::texts::CertificateLines;
use certificate::{CertText, Fault, print_cert};
use plan_core::Plan;
use std::alloc::{AllocError, Global};

/// The certificate of the plan that has these faults: the proofs of all its pairs where it has none, and else its first
/// fault.
///
/// Two senders are proved once, however many pairs they make, and the line of their proof is held once. Beside these
/// lines one proof is held at a time.
pub fn certificate_lines(
    alloc: Global,
    plan: &Plan,
    faults: &Faults,
) -> Result<CertificateLines, AllocError>
    requires { AreFaults (plan_contents plan.now) (fault_list faults.now) }
    ensures { IfOk result (λ lines. IsCertificateText (plan_contents plan.now) (text_of lines)) }
{
    if faults.len() == 0 {
        return lines_of_proofs(alloc, plan);
    }
    let (pair, fault) = faults.get(0);
    let head = flaw_text(alloc, pair, fault)?;
    Ok(CertificateLines {
        head,
        distinct: Vec::new(alloc),
        order: Vec::new(alloc),
    })
}

/// The same as one text.
pub fn certificate_text(alloc: Global, plan: &Plan, faults: &Faults) -> Result<Vec<u8>, AllocError>
    requires { AreFaults (plan_contents plan.now) (fault_list faults.now) }
    ensures { IfOk result (λ text. IsCertificateText (plan_contents plan.now) text.items) }
{
    let lines = certificate_lines(alloc, plan, faults)?;
    lines.joined(alloc)
}

// The proofs of all pairs.
fn lines_of_proofs(alloc: Global, plan: &Plan) -> Result<CertificateLines, AllocError>
    requires { IsSafe (plan_contents plan.now) }
    ensures { IfOk result (λ lines. IsCertificateText (plan_contents plan.now) (text_of lines)) }
{
    let distinct = proof_lines(alloc, plan)?;
    let head = heading(alloc, plan.pair_count())?;
    let mut order = Vec::with_capacity(alloc, plan.pair_count() as usize)?;
    for i in 0..plan.pair_count() {
        order.push(plan.sender_place(i) as u32)?;
    }
    Ok(CertificateLines {
        head,
        distinct,
        order,
    })
}

// The text of the fault of this pair.
fn flaw_text(alloc: Global, pair: u32, fault: &Fault) -> Result<Vec<u8>, AllocError>
    ensures { IfOk result (λ text.
        text.items ≡ cert_text (flaw pair fault.now.wire.items fault.now.first fault.now.second)) }
{
    let mut wire = Vec::new(alloc);
    wire.extend_from_slice(&fault.wire)?;
    let copy = Fault {
        wire,
        first: fault.first,
        second: fault.second,
    };
    print_cert(alloc, &CertText::Flaw(pair, copy))
}
