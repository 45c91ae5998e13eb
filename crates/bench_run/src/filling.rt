// What is put wherever a choice is made in one way.

ghost use Rattle.std.specs.Prelude.{◌≡◌, None, IfSome};
ghost use Rattle.places.specs.declared.offers.Offered.TheVariants.{Nothing};
ghost use Rattle.bench_run.specs.Filled.{IsFilling};

use bus_bench::{Offered, Put};
use message_tree::Bit;

/// What is put where this is offered: the one thing that may be, and the bit `fill` where either bit may be. `None` where
/// nothing is offered.
pub fn filled(offered: Offered, fill: bool) -> Option<Put>
    ensures none { result ≡ None → offered ≡ Nothing }
    ensures some { IfSome result (IsFilling offered fill) }
{
    match offered {
        Offered::Bit(Bit::Zero) => Some(Put::Drive(false)),
        Offered::Bit(Bit::One) => Some(Put::Drive(true)),
        Offered::Bit(Bit::Either) => Some(Put::Drive(fill)),
        Offered::Listen => Some(Put::Listen),
        Offered::Again => Some(Put::Again),
        Offered::Stop => Some(Put::Stop),
        Offered::Claim => Some(Put::Claim),
        Offered::Nothing => None,
    }
}
