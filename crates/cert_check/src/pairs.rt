// The check of one proof.

ghost use Rattle.std.specs.Prelude.{◌<◌, ◌↔◌, IsTrue, length, List};
ghost use Rattle.certificate.specs.Proofs.{proof_tree};
ghost use Rattle.certificate.specs.Proves.{Proves, ProvesHeaders, header_of};
ghost use Rattle.plan_core.specs.PlanContents.{plan_contents};
ghost use Rattle.plan_core.specs.Pairs.{pairs_of};
ghost use Rattle.cert_check.specs.Proved.{ProvesPair};
ghost use Rattle.plan_core.specs.Senders.{what_is_sent};

use crate::bits::{are_split_at, first_header};
use crate::nodes::frames_proved;
use certificate::Cert;
use plan_core::{Plan, Sends};

/// Whether the proof proves the pair with number `i`. It takes no memory.
pub fn check_pair(plan: &Plan, i: u32, cert: &Cert) -> bool
    requires { i < length (pairs_of (plan_contents plan.now)) }
    ensures { IsTrue result ↔ ProvesPair (plan_contents plan.now) i (proof_tree cert.now) }
{
    let (x, y) = plan.pair(i);
    are_proved(&plan.sends(x), &plan.sends(y), cert)
}

// Whether the proof proves what these two send.
fn are_proved(s: &Sends<'_>, t: &Sends<'_>, cert: &Cert) -> bool
    ensures { IsTrue result ↔ Proves (proof_tree cert.now) (what_is_sent s.now) (what_is_sent t.now) }
{
    match s {
        Sends::Message(f) => match t {
            Sends::Message(g) => frames_proved(f, g, cert),
            Sends::Interrupt(_) => headers_proved(s, t, cert),
        },
        Sends::Interrupt(_) => headers_proved(s, t, cert),
    }
}

// Whether the proof is that of a bit of their first headers.
fn headers_proved(s: &Sends<'_>, t: &Sends<'_>, cert: &Cert) -> bool
    ensures { IsTrue result ↔
        ProvesHeaders (proof_tree cert.now) (header_of (what_is_sent s.now)) (header_of (what_is_sent t.now)) }
{
    match cert {
        Cert::Part(place) => are_split_at(&first_header(s), &first_header(t), *place),
        _ => false,
    }
}
