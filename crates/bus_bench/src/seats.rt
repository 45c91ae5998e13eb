// The bench, its host, and the seats of those who play.

use crate::hands::{Hand, Setup, Terms};
use crate::steps::Wired;
use atomic_table::Table;
use places::Place;
use plays::Put;
use std::alloc::Global;
use std::marker::Model;

pub(crate) type Wire<'a> = Table<(), Hand, Setup<'a>, Wired, Global>;

pub(crate) type Ticket = atomic_table::Seat<(), Hand>;

/// A shared wire: one atomic word for each slot. Contracts see it by its name.
#[derive(Drop)]
pub struct Bench<'a> {
    pub(crate) wire: Wire<'a>,
    pub(crate) terms: Terms,
}

impl<'a> Model for Bench<'a> {
    ghost use Rattle.bus_bench.specs.Seats.{BenchName};
    ghost use Rattle.bus_bench.specs.Tickets.{bench_on, setup_of, IsBench};
    ghost use Rattle.std.specs.Coded.{codes};
    ghost use Rattle.plan_core.specs.contracts.plans.Plan as plan;

    ghost Value = { BenchName };

    ghost coded = { Prim.hlevel (codes, plan.the_row.coded) };

    ghost view = { λ b. bench_on b.wire.shared.table_id b.wire.shared.key b.terms };

    ghost invariant = { λ b. IsBench b.wire.shared.table_id b.wire.shared.key (setup_of b.wire.shared.key b.terms) };
}

/// The right to finish a bench. Contracts see it by the name of its bench.
#[derive(Drop)]
pub struct Host {
    pub(crate) ticket: Ticket,
}

impl Model for Host {
    ghost use Rattle.bus_bench.specs.Seats.{BenchName};
    ghost use Rattle.bus_bench.specs.Tickets.{ticket_bench, IsHost};
    ghost use Rattle.std.specs.Coded.{codes};
    ghost use Rattle.plan_core.specs.contracts.plans.Plan as plan;

    ghost Value = { BenchName };

    ghost coded = { Prim.hlevel (codes, plan.the_row.coded) };

    ghost view = { λ h. ticket_bench h.ticket.table_id h.ticket.me };

    ghost invariant = { λ h. IsHost h.ticket.me };
}

/// How a seat stands.
#[derive(Clone, Copy, Drop, PartialEq, Eq)]
pub enum Standing {
    /// It is live, and the run goes on.
    Playing,
    /// It has lost arbitration.
    Lost,
    /// It was live when the run ended.
    Ended,
}

/// The seat of one starter. It borrows the plan and stands at a place of what it plays. Contracts see it as its `Player`.
#[derive(Drop)]
pub struct Seat<'a> {
    pub(crate) ticket: Ticket,
    /// Its place among the starters.
    pub(crate) number: u32,
    /// Where it stands in what it plays, while it is playing.
    pub(crate) place: Place<'a>,
    /// What it has put in its slot, until it has seen the slot complete.
    pub(crate) own: Option<Put>,
    pub(crate) slot: u32,
    /// How many are live.
    pub(crate) live: u32,
    pub(crate) standing: Standing,
}

impl<'a> Model for Seat<'a> {
    ghost use Rattle.bus_bench.specs.Seats.{Player};
    ghost use Rattle.bus_bench.specs.Tickets.{player_of, IsSeat};
    ghost use Rattle.std.specs.Coded.{codes};
    ghost use Rattle.plan_core.specs.contracts.plans.Plan as plan;

    ghost Value = { Player };

    ghost coded = { Prim.hlevel (codes, plan.the_row.coded) };

    ghost view = { λ s. player_of s.ticket.table_id s.ticket.me s.standing };

    ghost invariant = { λ s. IsSeat s.ticket.me s.number s.place s.own s.slot s.live s.standing };
}
