// One player, and what it does in each slot.

ghost use Rattle.std.specs.Prelude.{◌≡◌};
ghost use Rattle.bus_bench.specs.Seats.{Player as SeatOf, HasPutHere, Saw};
ghost use Rattle.bus_bench.specs.declared.seats.Standing.TheVariants.{Playing};
ghost use Rattle.bench_run.specs.Players.{IsInStep};

use crate::filling::filled;
use crate::gates::Gate;
use crate::patience::{MOST_LOOKS, Patience};
use bus_bench::{Bench, MOST_SLOTS, Seat, Sight};
use message_tree::Item;
use std::time::Clock;

/// What a player does next.
#[derive(Clone, Copy, Drop, PartialEq, Eq)]
pub(crate) enum Stage {
    /// It puts in its slot.
    Puts,
    /// It has put, and looks whether the slot is complete.
    Looks,
    /// It has lost, or the run has ended.
    Over,
}

/// What players send where they may choose, and whom they call round each slot.
#[derive(Drop)]
pub(crate) struct Manner<'g, G> {
    pub(crate) fill: bool,
    pub(crate) gate: &'g G,
}

/// A seat, its place among the starters, and where its player is.
#[derive(Drop)]
pub(crate) struct Player<'a> {
    pub(crate) seat: Seat<'a>,
    pub(crate) number: u32,
    pub(crate) slot: u32,
    pub(crate) stage: Stage,
}

impl<'a> Player<'a> {
    ghost use Rattle.std.specs.Prelude.{◌≡◌, Bool};
    ghost use Rattle.bench_run.specs.Players.{PlaysOn};

    /// A player that has done nothing yet.
    pub(crate) fn new(seat: Seat<'a>, number: u32) -> Player<'a>
        ensures seat { result.seat ≡ seat.entry }
        ensures stage { result.stage ≡ Stage.Puts }
    {
        Player {
            seat,
            number,
            slot: 0,
            stage: Stage::Puts,
        }
    }

    /// Plays until it is through, or has waited in vain.
    pub(crate) fn play<R: Clock, G: Gate>(
        &mut self,
        rt: &R,
        bench: &Bench<'a>,
        manner: &Manner<'_, G>,
        mut patience: Patience<'_>,
    )
        requires { PlaysOn bench.now manner.now.fill self.old }
        ensures { PlaysOn bench.now manner.now.fill self.new }
    {
        for _ in 0..MOST_SLOTS {
            self.put(bench, manner);
            self.wait(rt, bench, manner, &mut patience);
            if self.stage != Stage::Puts {
                return;
            }
        }
    }

    /// Puts in its slot, where it has not.
    pub(crate) fn put<G: Gate>(&mut self, bench: &Bench<'a>, manner: &Manner<'_, G>)
        requires { PlaysOn bench.now manner.now.fill self.old }
        ensures { PlaysOn bench.now manner.now.fill self.new }
    {
        let Stage::Puts = self.stage else {
            return;
        };
        let Some(put) = filled(self.seat.offered(), manner.fill) else {
            return;
        };
        manner.gate.before(self.number, self.slot);
        let Ok(()) = self.seat.put(bench, put) else {
            return;
        };
        self.stage = Stage::Looks;
    }

    // Looks until the slot is complete, or its patience ends.
    fn wait<R: Clock, G: Gate>(
        &mut self,
        rt: &R,
        bench: &Bench<'a>,
        manner: &Manner<'_, G>,
        patience: &mut Patience<'_>,
    )
        requires { PlaysOn bench.now manner.now.fill self.old }
        ensures { PlaysOn bench.now manner.now.fill self.new }
    {
        for looks in 0..MOST_LOOKS {
            self.look(bench, manner);
            if self.stage != Stage::Looks || !patience.waits(rt, looks) {
                return;
            }
        }
    }

    /// Looks whether its slot is complete, where it has put there.
    pub(crate) fn look<G: Gate>(&mut self, bench: &Bench<'a>, manner: &Manner<'_, G>)
        requires { PlaysOn bench.now manner.now.fill self.old }
        ensures { PlaysOn bench.now manner.now.fill self.new }
    {
        let Stage::Looks = self.stage else {
            return;
        };
        self.stage = stage_after(self.seat.see(bench));
        if self.stage != Stage::Looks {
            manner.gate.after(self.number, self.slot);
            self.slot = self.slot.saturating_add(1);
        }
    }
}

// What a player does that has put, and is told this.
fn stage_after(sight: Sight) -> Stage
    ensures { (old new : SeatOf) → old.standing ≡ Playing → HasPutHere old → Saw sight old new → IsInStep result new }
{
    match sight {
        Sight::Waiting => Stage::Looks,
        Sight::NotPut => Stage::Puts,
        Sight::On(Item::Stop | Item::Claim) | Sight::Lost(_) | Sight::Ended => Stage::Over,
        Sight::On(_) => Stage::Puts,
    }
}
