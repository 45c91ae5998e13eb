// The rule of a bench, and what each kind of step tells the one who steps.

use crate::hands::{Hand, Setup};
use atomic_table::{Join, Play, Split, TableRule};

/// The rule: at every moment the puts of all starters are a play, the words count them slot by slot, and each seat has
/// seen a state that the play has passed.
pub struct Wired;

impl<'a> TableRule<(), Hand, Setup<'a>> for Wired {
    ghost use Rattle.bus_bench.specs.Rule.{holds_at, opening};

    ghost holds = { holds_at };

    ghost first = { opening };
}

/// A seat puts.
pub struct Puts;

impl Play<(), Hand> for Puts {
    ghost use Rattle.std.specs.Prelude.{◌≡◌};
    ghost use Rattle.bus_bench.specs.Steps.{HasPut};

    ghost then = { λ step me found after. HasPut step.first me.0 after.0 × (after.1 ≡ me.1) };
}

/// A seat looks at its slot.
pub struct Sees;

impl Play<(), Hand> for Sees {
    ghost use Rattle.std.specs.Prelude.{◌≡◌};
    ghost use Rattle.bus_bench.specs.Steps.{HasSeen};

    ghost then = { λ step me found after. HasSeen found me.0 after.0 × (after.1 ≡ me.1) };
}

/// The host, to which all seats have come back, reads a slot.
pub struct Reads;

impl Play<(), Hand> for Reads {
    ghost use Rattle.std.specs.Prelude.{◌≡◌};
    ghost use Rattle.bus_bench.specs.Steps.{HasRead};

    ghost then = { λ step me found after. HasRead step.word found me.0 × (after ≡ me) };
}

/// The host hands a seat out.
pub struct HandsOut;

impl Split<Hand> for HandsOut {
    ghost use Rattle.bus_bench.specs.Steps.{handing_out, handed_out};

    ghost left = { handing_out };

    ghost right = { handed_out };
}

/// A seat comes back to the host.
pub struct ComesBack;

impl Join<Hand> for ComesBack {
    ghost use Rattle.bus_bench.specs.Steps.{taken_back, nobody};

    ghost both = { taken_back };

    ghost spent = { nobody };
}
