// All players of a bench.

ghost use Rattle.std.specs.Prelude.{◌≡◌, All, IfOk, map, length, vec_len, true, Bool};
ghost use Rattle.std.specs.List.{list_all, range_with_len};
ghost use Rattle.std.specs.Thread.{IsSync};
ghost use Rattle.bus_bench.specs.Seats.{BenchName, fresh, game_of};
ghost use Rattle.bus_bench.specs.Finishing.{AreAll, is_done};
ghost use Rattle.bench_run.specs.Filled.{IsRehearsed};
ghost use Rattle.bench_run.specs.Players.{PlaysOn, IsReady, IsPart};
ghost use Rattle.bench_run.specs.declared.players.Stage.TheVariants.{Over};

use crate::gates::Gate;
use crate::patience::Patience;
use crate::players::{Manner, Player, Stage};
use bus_bench::{Bench, FinishFault, Host, Played, Seat, Unfinished, finish};
use std::alloc::{AllocError, Global};
use std::sync::Wait;
use std::sync::atomic::AtomicBool;
use std::thread;
use std::thread::Threads;
use std::time::Clock;

// What one thread plays: this player, on this bench.
#[derive(Drop)]
pub(crate) struct Part<'b, 'a> {
    pub(crate) player: Player<'a>,
    pub(crate) bench: &'b Bench<'a>,
    pub(crate) fill: bool,
}

/// Plays the bench to its end: each seat in a thread of its own, where one can be made, and what is then left by turns.
pub fn play_all<'a, R: Threads + Wait + Clock + Sync, G: Gate + Sync>(
    rt: &R,
    alloc: Global,
    bench: Bench<'a>,
    host: Host,
    seats: Vec<Seat<'a>>,
    fill: bool,
    gate: &G,
) -> Result<Played, AllocError>
    requires host { host ≡ bench }
    requires seats { seats.items ≡ map (fresh bench) (range_with_len 0 (length bench.starters)) }
    ensures { IfOk result (λ p. IsRehearsed (game_of bench.entry) fill p.wire.items p.won.items) }
{
    let parts = parts_of(alloc, &bench, seats, fill)?;
    let mut players = play_in_threads(rt, parts, gate)?;
    play_by_turns(rt, &bench, players.as_mut_slice(), &Manner { fill, gate });
    let seats = seats_of(alloc, players)?;
    match finish(alloc, bench, host, seats) {
        Ok(played) => Ok(played),
        Err(Unfinished { why, .. }) => match why {
            FinishFault::NoMemory => Err(AllocError),
            FinishFault::Missing => unreachable!(),
            FinishFault::NotEnded => unreachable!(),
        },
    }
}

// A part for each seat of this bench, in order.
fn parts_of<'b, 'a>(
    alloc: Global,
    bench: &'b Bench<'a>,
    seats: Vec<Seat<'a>>,
    fill: bool,
) -> Result<Vec<Part<'b, 'a>>, AllocError>
    ensures seats { IfOk result (λ v. map (λ p. p.player.seat) v.items ≡ seats.entry.items) }
    ensures each { IfOk result (λ v. All (IsReady bench.now fill) v.items) }
{
    let mut parts = Vec::with_capacity(alloc, seats.len())?;
    let mut number = 0u32;
    for seat in seats {
        parts.push(Part {
            player: Player::new(seat, number),
            bench,
            fill,
        })?;
        number = number.saturating_add(1);
    }
    Ok(parts)
}

// The seats of the players, in order.
fn seats_of<'a>(alloc: Global, players: Vec<Player<'a>>) -> Result<Vec<Seat<'a>>, AllocError>
    ensures { IfOk result (λ v. v.items ≡ map (λ p. p.seat) players.entry.items) }
{
    let mut seats = Vec::with_capacity(alloc, players.len())?;
    for player in players {
        seats.push(player.seat)?;
    }
    Ok(seats)
}

// Each part in a thread of its own, where one can be made, until its player is through or has waited in vain.
fn play_in_threads<'b, 'a, R: Threads + Clock + Sync, G: Gate + Sync>(
    rt: &R,
    parts: Vec<Part<'b, 'a>>,
    gate: &G,
) -> Result<Vec<Player<'a>>, AllocError>
    requires { All (λ part. PlaysOn part.bench.now part.fill part.player) parts.items }
    ensures len { IfOk result (λ v. vec_len v ≡ vec_len parts.entry) }
    ensures each { (bench : BenchName) (fill : Bool) → All (IsPart bench fill) parts.entry.items →
        IfOk result (λ v. All (PlaysOn bench fill) v.items) }
{
    let given_up = AtomicBool::new(false);
    thread::map_vec(
        rt,
        parts,
        &|part|
            requires { PlaysOn part.bench.now part.fill part.player }
            ensures { (bench : BenchName) (fill : Bool) → IsPart bench fill part.entry → PlaysOn bench fill result }
        { played(rt, part, gate, Patience::new(&given_up)) },
    )
}

// The player, when it has played.
fn played<'b, 'a, R: Clock, G: Gate>(
    rt: &R,
    part: Part<'b, 'a>,
    gate: &G,
    patience: Patience<'_>,
) -> Player<'a>
    requires { PlaysOn part.bench.now part.fill part.player }
    ensures { (bench : BenchName) (fill : Bool) → IsPart bench fill part.entry → PlaysOn bench fill result }
{
    let Part {
        mut player,
        bench,
        fill,
    } = part;
    player.play(rt, bench, &Manner { fill, gate }, patience);
    player
}

// The players that are left play by turns, slot by slot, in the thread of the caller.
fn play_by_turns<'a, R: Wait, G: Gate>(
    rt: &R,
    bench: &Bench<'a>,
    players: &mut [Player<'a>],
    manner: &Manner<'_, G>,
)
    requires { All (PlaysOn bench.now manner.now.fill) players.old }
    ensures len { length players.new ≡ length players.old }
    ensures each { All (PlaysOn bench.now manner.now.fill) players.new }
    ensures over { All (λ p. p.stage ≡ Over) players.new }
{
    for _ in rt.forever() {
        if are_over(players) {
            return;
        }
        put_all(bench, players, manner);
        look_all(bench, players, manner);
    }
}

fn are_over(players: &[Player<'_>]) -> bool
    ensures { result ≡ true → All (λ p. p.stage ≡ Over) players.now }
{
    players.iter().all(|player| player.stage == Stage::Over)
}

fn put_all<'a, G: Gate>(bench: &Bench<'a>, players: &mut [Player<'a>], manner: &Manner<'_, G>)
    requires { All (PlaysOn bench.now manner.now.fill) players.old }
    ensures len { length players.new ≡ length players.old }
    ensures each { All (PlaysOn bench.now manner.now.fill) players.new }
{
    for player in players {
        player.put(bench, manner);
    }
}

fn look_all<'a, G: Gate>(bench: &Bench<'a>, players: &mut [Player<'a>], manner: &Manner<'_, G>)
    requires { All (PlaysOn bench.now manner.now.fill) players.old }
    ensures len { length players.new ≡ length players.old }
    ensures each { All (PlaysOn bench.now manner.now.fill) players.new }
{
    for player in players {
        player.look(bench, manner);
    }
}
