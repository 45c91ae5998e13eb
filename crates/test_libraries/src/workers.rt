// What several workers find, and that they really work in threads of their own.

use crate::gates::{Flag, Yields};
use certificate::{Fault, print_cert};
use plan_core::Plan;
use plan_text::read_plan;
use report::run_check_with;
use run_parts::Watched;
use std::alloc::Global;
use std::sync::atomic::{AtomicU64, Ordering};
use std::test::Fail;
use std::thread::Threads;
use verdicts::{Faults, Gate, MOST_WORKERS, Table, faults, faults_with, table, table_with};

/// How often each plan is checked with workers that yield at random.
const RUNS: u32 = 200;

/// In how many of these runs all verdicts are compared too.
const TABLES: u32 = 28;

// Eight controllers that each send the same five messages.
const FORTY: &str = "\
plan 1
message m0 write 1001000 00000000 stop else stop else stop ;
message m1 write 1001000 00000001 stop else stop else stop ;
message m2 write 1001000 0000001x stop else stop else stop ;
message m3 write 1001000 00000100 stop else stop else stop ;
message m4 write 1001000 1xxxxxxx stop else stop else stop ;
controller c0 m0 m1 m2 m3 m4 ;
controller c1 m0 m1 m2 m3 m4 ;
controller c2 m0 m1 m2 m3 m4 ;
controller c3 m0 m1 m2 m3 m4 ;
controller c4 m0 m1 m2 m3 m4 ;
controller c5 m0 m1 m2 m3 m4 ;
controller c6 m0 m1 m2 m3 m4 ;
controller c7 m0 m1 m2 m3 m4 ;
";

// Eight controllers that each send the same three messages, of which two clash.
const CLASHING: &str = "\
plan 1
message m write 1001000 stop else stop ;
message n write 1001000 0000000x stop else stop else stop ;
message o write 1001001 stop else stop ;
controller c0 m n o ;
controller c1 m n o ;
controller c2 m n o ;
controller c3 m n o ;
controller c4 m n o ;
controller c5 m n o ;
controller c6 m n o ;
controller c7 m n o ;
";

// ---- what is found

// The certificate of what is found.
fn certified<E: Drop>(alloc: Global, found: Result<Table, E>) -> Option<Vec<u8>> {
    let certificate = found.ok()?.certify(alloc).ok()?;
    print_cert(alloc, &certificate).ok()
}

// The certificate of all verdicts, by one thread and by so many workers.
fn are_tables_same<R: Threads + Sync, G: Gate + Sync>(
    rt: &R,
    alloc: Global,
    plan: &Plan,
    workers: u32,
    gate: &G,
) -> bool {
    let alone = certified(alloc, table(alloc, plan));
    alone.is_some() && alone == certified(alloc, table_with(rt, alloc, plan, workers, gate))
}

fn is_same(one: &Fault, other: &Fault) -> bool {
    one.first == other.first
        && one.second == other.second
        && one.wire.as_slice() == other.wire.as_slice()
}

fn are_same(alone: &Faults, shared: &Faults) -> bool {
    for k in 0..alone.len() {
        if k >= shared.len() {
            return false;
        }
        let (pair, fault) = alone.get(k);
        let (other, found) = shared.get(k);
        if pair != other || !is_same(fault, found) {
            return false;
        }
    }
    alone.len() == shared.len()
}

// All faults, by one thread and by so many workers.
fn are_faults_same<R: Threads + Sync, G: Gate + Sync>(
    rt: &R,
    alloc: Global,
    plan: &Plan,
    workers: u32,
    gate: &G,
) -> bool {
    match (
        faults(alloc, plan),
        faults_with(rt, alloc, plan, workers, gate),
    ) {
        (Ok(alone), Ok(shared)) => are_same(&alone, &shared),
        _ => false,
    }
}

#[test]
fn workers_that_yield_at_random_find_the_same(rt: HostRuntime) -> Result<(), Fail> {
    let gate = Yields::new();
    for text in &[FORTY, CLASHING] {
        let plan = read_plan(rt.alloc(), text.as_bytes())?;
        for run in 0..RUNS {
            let workers = 2 + run % (MOST_WORKERS - 1);
            assert!(rt; are_faults_same(&rt, rt.alloc(), &plan, workers, &gate));
            // 700 pairs or 252, each of which one worker takes from the queue
            assert!(rt; run >= TABLES || are_tables_same(&rt, rt.alloc(), &plan, workers, &gate));
        }
    }
    Ok(())
}

// ---- threads

// Each of the first pieces of work, one for each worker, raises a flag and waits for the flags of the others. All pieces
// are counted as they begin and as they end.
#[derive(Drop)]
struct Flags {
    workers: u64,
    flag: Flag,
    // The workers that raised the flag, as bits.
    who: AtomicU64,
    begun: AtomicU64,
    ended: AtomicU64,
}

impl Flags {
    fn new(workers: u32) -> Flags {
        Flags {
            workers: u64::from(workers),
            flag: Flag::new(),
            who: AtomicU64::new(0),
            begun: AtomicU64::new(0),
            ended: AtomicU64::new(0),
        }
    }

    // Whether each worker raised the flag, none waited in vain, and so many pieces of work have begun and ended.
    fn have_met(&self, pieces: u64) -> bool {
        self.flag.was_raised_by(self.workers)
            && u64::from(self.who.load(Ordering::SeqCst).count_ones()) == self.workers
            && self.begun.load(Ordering::SeqCst) == pieces
            && self.ended.load(Ordering::SeqCst) == pieces
    }
}

impl Gate for Flags {
    fn before(&self, worker: u32, pair: u32) {
        self.begun.fetch_add(1, Ordering::SeqCst);
        if u64::from(pair) < self.workers {
            let bit = 1u64.checked_shl(worker).unwrap_or(0);
            self.who.fetch_or(bit, Ordering::SeqCst);
            self.flag.raise(self.workers);
        }
    }

    fn after(&self, _worker: u32, _pair: u32) {
        self.ended.fetch_add(1, Ordering::SeqCst);
    }
}

// 40 participants of 8 controllers are 700 pairs.
fn meet_at_tables<R: Threads + Sync>(rt: &R, alloc: Global, plan: &Plan, workers: u32) -> bool {
    let flags = Flags::new(workers);
    let has_verdicts = match table_with(rt, alloc, plan, workers, &flags) {
        Ok(table) => table.verdicts().len() == 700 && table.is_safe(),
        Err(_) => false,
    };
    has_verdicts && flags.have_met(700)
}

#[test]
fn two_to_eight_workers_walk_at_the_same_time(rt: HostRuntime) -> Result<(), Fail> {
    let plan = read_plan(rt.alloc(), FORTY.as_bytes())?;
    for workers in &[2u32, 8] {
        assert!(rt; meet_at_tables(&rt, rt.alloc(), &plan, *workers));
    }
    Ok(())
}

// Five messages have 25 places of two senders.
fn meet_in_a_check<R: Threads + Sync>(rt: &R, alloc: Global, workers: u32) -> bool {
    let flags = Flags::new(workers);
    let mut page = Watched::new(Vec::new(alloc));
    let mut plan = Watched::new(FORTY.as_bytes());
    let ended = run_check_with(rt, alloc, &mut plan, &mut page, workers, &flags);
    ended.is_ok()
        && page.into_inner().as_slice() == b"safe: 700 pairs\n".as_slice()
        && flags.have_met(25)
}

#[test]
fn a_check_uses_all_its_workers(rt: HostRuntime) {
    for workers in &[2u32, 8] {
        assert!(rt; meet_in_a_check(&rt, rt.alloc(), *workers));
    }
}
