// That a rehearsal is played in threads of their own, and the same whatever the order in which they run.

use crate::gates::{Flag, Yields};
use bench_run::{Gate, run_bench};
use run_parts::{Status, Watched};
use std::alloc::Global;
use std::sync::Wait;
use std::sync::atomic::{AtomicU64, Ordering};
use std::thread;
use std::thread::Threads;
use std::time::{Clock, Duration};

/// How often a bench is played by players that yield at random.
const RUNS: u32 = 200;

// Three writers of one byte each to one target, of which two may send the same.
const THREE_WRITERS: &str = "plan 1
message m write 1001000 11110000 stop else stop else stop ;
message n write 1001000 11001111 stop else stop else stop ;
message o write 1001000 1100xxxx stop else stop else stop ;
controller a m ;
controller b n ;
controller c o ;
";

const THREE_PROOFS: &str = "cert 1
pairs 3
B P2 .
B P2 .
B B . . .
";

// Whether a run answers well, and writes the one rehearsal, to all three starters, who fill with ones on a bench whose targets
// acknowledge.
fn is_played<R: Threads + Wait + Clock + Sync, G: Gate + Sync>(
    rt: &R,
    alloc: Global,
    gate: &G,
) -> bool {
    let mut out = Watched::new(Vec::new(alloc));
    let answer = run_bench(
        rt,
        alloc,
        &mut Watched::new(THREE_WRITERS.as_bytes()),
        &mut Watched::new(THREE_PROOFS.as_bytes()),
        &mut out,
        "a/m,b/n,c/o",
        true,
        "000000000000000000",
        gate,
    );
    answer == Ok(Status::Good)
        && out.into_inner().as_slice() == b"wire 10010000l11001111ls\nwon b/n c/o\n".as_slice()
}

/// A slot after the first header, in which all three starters are still live.
const LATER: u32 = 10;

/// The slot before the last one, in which two are.
const NEXT_TO_LAST: u32 = 17;

// Each seat raises a flag before its first slot, again before a later one, and before the one next to the last, and waits
// for the flags of the others that are live.
#[derive(Drop)]
struct Flags {
    seats: u64,
    first: Flag,
    later: Flag,
    last: Flag,
    before: AtomicU64,
    after: AtomicU64,
}

impl Flags {
    fn new(seats: u64) -> Flags {
        Flags {
            seats,
            first: Flag::new(),
            later: Flag::new(),
            last: Flag::new(),
            before: AtomicU64::new(0),
            after: AtomicU64::new(0),
        }
    }
}

impl Gate for Flags {
    fn before(&self, _seat: u32, slot: u32) {
        self.before.fetch_add(1, Ordering::SeqCst);
        match slot {
            0 => self.first.raise(self.seats),
            LATER => self.later.raise(self.seats),
            NEXT_TO_LAST => self.last.raise(self.seats.min(2)),
            _ => {}
        }
    }

    fn after(&self, _seat: u32, _slot: u32) {
        self.after.fetch_add(1, Ordering::SeqCst);
    }
}

#[test]
fn all_starters_play_at_the_same_time_and_call_the_gate_round_each_slot(rt: HostRuntime) {
    let gate = Flags::new(3);
    assert!(rt; is_played(&rt, rt.alloc(), &gate));
    assert!(rt;
        gate.first.was_raised_by(3) && gate.later.was_raised_by(3) && gate.last.was_raised_by(2)
    );
    // The wire has 19 slots, and a/m loses in slot 11.
    assert_eq!(rt; gate.before.load(Ordering::SeqCst), 12 + 19 + 19);
    assert_eq!(rt; gate.after.load(Ordering::SeqCst), 12 + 19 + 19);
}

// The first seat sleeps so long that the others give their seats back.
#[derive(Drop)]
struct SlowSeat<'r, R> {
    rt: &'r R,
}

impl<R: Clock> Gate for SlowSeat<'_, R> {
    fn before(&self, seat: u32, slot: u32) {
        if seat == 0 && slot == 3 {
            thread::sleep(self.rt, Duration::from_secs(2));
        }
    }

    fn after(&self, _seat: u32, _slot: u32) {}
}

#[test]
fn seats_that_were_given_back_are_played_by_turns(rt: HostRuntime) {
    assert!(rt; is_played(&rt, rt.alloc(), &SlowSeat { rt: &rt }));
}

#[test]
fn players_that_yield_at_random_play_the_same(rt: HostRuntime) {
    let gate = Yields::new();
    for _ in 0..RUNS {
        assert!(rt; is_played(&rt, rt.alloc(), &gate));
    }
}
