// The check of one fault: the wire is followed through each of the two participants.

ghost use Rattle.std.specs.Prelude.{◌≡◌, ◌<◌, ◌↔◌, IsTrue, length};
ghost use Rattle.message_tree.specs.Items.{KindsClash};
ghost use Rattle.message_tree.specs.Texts.{SenderText};
ghost use Rattle.plan_core.specs.PlanContents.{plan_contents};
ghost use Rattle.plan_core.specs.Pairs.{pairs_of};
ghost use Rattle.cert_check.specs.PairFaults.{IsPairFault};
ghost use Rattle.plan_core.specs.Senders.{what_is_sent};
ghost use Rattle.cert_check.specs.Wires.{GoesOnWith, ClashAfter, is_offered};

use certificate::Fault;
use message_tree::{Item, Kind};
use places::{Offered, Place};
use plan_core::{Plan, Sends};

/// Whether the pair with number `i` has this fault when it starts alone. Any of its faults will do, not only the first.
/// It takes no memory.
pub fn check_fault(plan: &Plan, i: u32, fault: &Fault) -> bool
    requires { i < length (pairs_of (plan_contents plan.now)) }
    ensures { IsTrue result ↔
        IsPairFault (plan_contents plan.now) i fault.now.wire.items fault.now.first fault.now.second }
{
    let (x, y) = plan.pair(i);
    may_clash(&plan.sends(x), &plan.sends(y), fault)
}

// Whether the two may put items of these kinds after this wire, and these must not meet.
fn may_clash(s: &Sends<'_>, t: &Sends<'_>, fault: &Fault) -> bool
    ensures { IsTrue result ↔
        ClashAfter (what_is_sent s.now) (what_is_sent t.now) fault.now.wire.items fault.now.first fault.now.second }
{
    let wire = fault.wire.as_slice();
    kinds_clash(fault.first, fault.second)
        && may_put(s, wire, fault.first)
        && may_put(t, wire, fault.second)
}

// Whether items of these kinds must not meet (UM10204, 3.1.8, and two claims).
fn kinds_clash(j: Kind, k: Kind) -> bool
    ensures { IsTrue result ↔ KindsClash j k }
{
    j != k || j == Kind::Claim
}

// Whether the participant may put an item of this kind after this wire.
fn may_put(sends: &Sends<'_>, wire: &[Item], kind: Kind) -> bool
    ensures { IsTrue result ↔ GoesOnWith (SenderText (what_is_sent sends.now)) wire.now kind }
{
    let mut place = Place::start(*sends);
    for item in wire {
        if !place.offered().allows(*item) {
            return false;
        }
        place = place.after(*item);
    }
    is_offered(place.offered(), kind)
}

// Whether an item of this kind may come next.
fn is_offered(offered: Offered, kind: Kind) -> bool
    ensures { result ≡ is_offered offered kind }
{
    matches!(
        (offered, kind),
        (Offered::Bit(_), Kind::Sent)
            | (Offered::Listen, Kind::Heard)
            | (Offered::Again, Kind::Again)
            | (Offered::Stop, Kind::Stop)
            | (Offered::Claim, Kind::Claim)
    )
}
