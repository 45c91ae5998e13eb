// Finishing a bench.

ghost use Rattle.std.specs.Prelude.{◌≡◌, ◌≤◌, ℕ, true, All, [], ◌∷◌, ◌++◌, if◌then◌else◌, length, vec_capacity};
ghost use Rattle.std.specs.Prelude.{IfOk, OnOk, IfErr};
ghost use Rattle.std.specs.List.{list_all};
ghost use Rattle.bus_bench.specs.Finishing.{IsFinished, IsFinishFault, AreAll, is_done, has_won, winners, IsRunLength};
ghost use Rattle.bus_bench.specs.Finishing.{HasBack, IsGivenBack, RunIs, IsReadOut};
ghost use Rattle.bus_bench.specs.Rule.{SLOTS};
ghost use Rattle.bus_bench.specs.Tickets.{IsBench, bench_on, ticket_bench, setup_of};
ghost use Rattle.bus_bench.specs.declared.hands.Role.TheVariants as Role;

use crate::errors::FinishFault;
use crate::hands::Terms;
use crate::putting::answer_in;
use crate::seats::{Bench, Host, Seat, Standing, Ticket, Wire};
use crate::steps::{ComesBack, Reads};
use message_tree::Item;
use plays::Tally;
use std::alloc::{AllocError, Global};

/// What was played: the wire, and who was live at its end, by participant number, in the order of the starters.
#[derive(Drop)]
pub struct Played {
    pub wire: Vec<Item>,
    pub won: Vec<u32>,
}

/// The bench, its host and its seats, handed back as they were, and why the bench is not finished.
#[derive(Drop)]
pub struct Unfinished<'a> {
    pub bench: Bench<'a>,
    pub host: Host,
    pub seats: Vec<Seat<'a>>,
    pub why: FinishFault,
}

/// Takes all seats of a bench back, in any order, and tells what was played. Missing where the number of seats is not that
/// of the starters; else NotEnded where some seat has neither lost nor seen the end; else NoMemory where there is none.
/// Bench, host and seats come from one `open_bench`, which is the caller's duty.
pub fn finish<'a>(
    alloc: Global,
    bench: Bench<'a>,
    host: Host,
    seats: Vec<Seat<'a>>,
) -> Result<Played, Unfinished<'a>>
    requires host { host ≡ bench }
    requires seats { All (λ seat. seat.bench ≡ bench) seats.items }
    ensures played { IfOk result (λ p. IsFinished bench.entry seats.entry.items p.wire.items p.won.items) }
    ensures why { IfErr result (λ u. IsFinishFault u.why bench.entry seats.entry.items) }
    ensures unchanged { IfErr result (λ u. (u.bench ≡ bench.entry) × (u.host ≡ host) × (u.seats.items ≡ seats.entry.items)) }
{
    let why = if seats.len() != bench.terms.starters.len() {
        FinishFault::Missing
    } else if !all_done(&seats) {
        FinishFault::NotEnded
    } else {
        match room(alloc, &bench, &seats) {
            Ok(played) => return Ok(read_all(bench, host, seats, played)),
            Err(AllocError) => FinishFault::NoMemory,
        }
    };
    Err(Unfinished {
        bench,
        host,
        seats,
        why,
    })
}

// Whether each has lost or seen the end.
fn all_done(seats: &[Seat<'_>]) -> bool
    ensures { result ≡ list_all is_done seats.now }
{
    seats.iter().all(|seat| seat.standing != Standing::Playing)
}

// The winners, and room for the wire.
fn room(alloc: Global, bench: &Bench<'_>, seats: &[Seat<'_>]) -> Result<Played, AllocError>
    ensures won { IfOk result (λ p. p.won.items ≡ winners seats.now 0 bench.now.starters) }
    ensures wire { IfOk result (λ p. (p.wire.items ≡ []) × (SLOTS ≤ vec_capacity p.wire)) }
{
    let wire = Vec::with_capacity(alloc, crate::opening::MOST_SLOTS)?;
    let mut won = Vec::with_capacity(alloc, seats.len())?;
    for (number, starter) in bench.terms.starters.iter().enumerate() {
        add_winner(seats, number as u32, *starter, &mut won)?;
    }
    Ok(Played { wire, won })
}

// The starter, where its seat was live at the end.
fn add_winner(
    seats: &[Seat<'_>],
    number: u32,
    starter: u32,
    won: &mut Vec<u32>,
) -> Result<(), AllocError>
    ensures { OnOk result (won.new.items ≡ won.old.items ++ (if has_won seats.now number then starter ∷ [] else [])) }
{
    if is_winner(seats, number) {
        won.push(starter)?;
    }
    Ok(())
}

// Whether the seat of this starter was live at the end.
fn is_winner(seats: &[Seat<'_>], number: u32) -> bool
    ensures { result ≡ has_won seats.now number }
{
    seats.iter().any(|seat| seat.number == number && seat.standing == Standing::Ended)
}

// How many slots the run has: those of a seat that saw its end.
fn run_length(seats: &[Seat<'_>]) -> u32
    ensures { IsRunLength seats.now result }
{
    for seat in seats {
        if seat.standing == Standing::Ended {
            return seat.slot;
        }
    }
    0
}

// The wire, read from its words once all seats are back. There is room for it.
fn read_all<'a>(bench: Bench<'a>, host: Host, seats: Vec<Seat<'a>>, mut played: Played) -> Played
    requires host { host ≡ bench }
    requires seats { All (λ seat. seat.bench ≡ bench) seats.items }
    requires all { AreAll bench seats.items }
    requires done { list_all is_done seats.items ≡ true }
    requires won { played.won.items ≡ winners seats.items 0 bench.starters }
    requires wire { (played.wire.items ≡ []) × (SLOTS ≤ vec_capacity played.wire) }
    ensures { IsFinished bench.entry seats.entry.items result.wire.items result.won.items }
{
    let count = run_length(&seats);
    let Bench { wire, terms } = bench;
    let Host { mut ticket } = host;
    take_back(&wire, &terms, &mut ticket, seats);
    read_wire(&wire, &terms, &mut ticket, count, &mut played.wire);
    played
}

// The host takes these seats back.
fn take_back<'a>(wire: &Wire<'a>, terms: &Terms, ticket: &mut Ticket, seats: Vec<Seat<'a>>)
    requires bench { IsBench wire.now.shared.table_id wire.now.shared.key (setup_of wire.now.shared.key terms.now) }
    requires host { HasBack (bench_on wire.now.shared.table_id wire.now.shared.key terms.now) []
        ticket.old.table_id ticket.old.me }
    requires seats { All (λ seat. seat.bench ≡ bench_on wire.now.shared.table_id wire.now.shared.key terms.now) seats.items }
    ensures { HasBack (bench_on wire.now.shared.table_id wire.now.shared.key terms.now) seats.entry.items
        ticket.new.table_id ticket.new.me }
{
    for seat in seats {
        give_back(wire, terms, ticket, seat);
    }
}

fn give_back<'a>(wire: &Wire<'a>, terms: &Terms, ticket: &mut Ticket, seat: Seat<'a>)
    requires bench { IsBench wire.now.shared.table_id wire.now.shared.key (setup_of wire.now.shared.key terms.now) }
    requires host { ticket.old.me.0.role ≡ Role.Host }
    requires slots { ticket.old.me.1 ≡ [] }
    requires named { bench_on wire.now.shared.table_id wire.now.shared.key terms.now ≡
        ticket_bench ticket.old.table_id ticket.old.me }
    requires seat { seat.bench ≡ bench_on wire.now.shared.table_id wire.now.shared.key terms.now }
    ensures same { ticket.new.table_id ≡ ticket.old.table_id }
    ensures hand { IsGivenBack seat.entry ticket.old.me ticket.new.me }
{
    let Seat {
        ticket: part,
        number: _,
        place: _,
        own: _,
        slot: _,
        live: _,
        standing: _,
    } = seat;
    wire.shared.join_seat::<ComesBack>(ticket, part);
}

// Reads the wire of a run of so many slots, once all seats are back. There is room for it.
fn read_wire<'a>(
    wire: &Wire<'a>,
    terms: &Terms,
    ticket: &mut Ticket,
    count: u32,
    items: &mut Vec<Item>,
)
    requires bench { IsBench wire.now.shared.table_id wire.now.shared.key (setup_of wire.now.shared.key terms.now) }
    requires host { ticket.old.me.0.role ≡ Role.Host }
    requires slots { ticket.old.me.1 ≡ [] }
    requires named { bench_on wire.now.shared.table_id wire.now.shared.key terms.now ≡
        ticket_bench ticket.old.table_id ticket.old.me }
    requires all { length ticket.old.me.0.back ≡ length ticket.old.me.0.starters }
    requires run { (count ≤ SLOTS) × RunIs ticket.old.me.0 count }
    requires items { (items.old.items ≡ []) × (SLOTS ≤ vec_capacity items.old) }
    ensures { IsReadOut ticket.old.me.0 items.new.items }
{
    wire.shared.load::<Reads>(ticket, 0);
    let mut live = terms.starters.len() as u32;
    for slot in 0..count {
        let tally = Tally::new(wire.shared.load::<Reads>(ticket, slot as usize));
        items.push_reserved(tally.shown(answer_in(&terms.answers, slot)));
        live = tally.left(live);
    }
}
