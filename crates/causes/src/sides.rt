// The two sides of a cause, and which of them comes first.

ghost use Rattle.std.specs.Prelude.{◌≡◌};
ghost use Rattle.causes.specs.Causes.{comes_before, in_order, is_lower, rank};

use crate::families::Family;
use message_tree::Kind;

/// One of the two that meet: its family, and the kind of its item.
#[derive(Clone, Copy, PartialEq, Eq)]
#[derive_where(Hash)]
pub struct Side {
    pub family: Family,
    // Two that differ in the kind alone are hashed alike. They are few.
    #[derive_where(skip(Hash))]
    pub kind: Kind,
}

/// The same two sides, that of the lower family first, and of one family that of the lower kind.
#[tactic(auto, unfolding(crate::specs::Causes::in_order))]
pub(crate) fn in_order(a: Side, b: Side) -> (Side, Side)
    ensures { result ≡ in_order a b }
{
    if comes_before(b, a) { (b, a) } else { (a, b) }
}

fn comes_before(a: Side, b: Side) -> bool
    ensures { result ≡ comes_before a b }
{
    is_lower(a.family, b.family) || !is_lower(b.family, a.family) && rank(a.kind) < rank(b.kind)
}

fn is_lower(a: Family, b: Family) -> bool
    ensures { result ≡ is_lower a b }
{
    match (a, b) {
        (Family::Messages { first: m, .. }, Family::Messages { first: n, .. }) => m < n,
        (Family::Messages { .. }, Family::Interrupt(_)) => true,
        (Family::Interrupt(_), Family::Messages { .. }) => false,
        (Family::Interrupt(k), Family::Interrupt(l)) => k < l,
    }
}

fn rank(kind: Kind) -> u8
    ensures { result ≡ rank kind }
{
    match kind {
        Kind::Sent => 0,
        Kind::Heard => 1,
        Kind::Again => 2,
        Kind::Stop => 3,
        Kind::Claim => 4,
    }
}
