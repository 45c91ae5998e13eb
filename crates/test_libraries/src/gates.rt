// What gates do that hold threads, or that yield at random.

use std::sync::atomic::{AtomicU64, Ordering};
use std::thread;

/// How often a thread looks at a flag of others before a test fails.
const MOST_TURNS: u32 = 1_000_000;

/// A flag that each of some threads raises, which then waits for the others.
#[derive(Drop)]
pub struct Flag {
    raised: AtomicU64,
    missed: AtomicU64,
}

impl Flag {
    /// Nobody has raised it.
    pub fn new() -> Flag {
        Flag {
            raised: AtomicU64::new(0),
            missed: AtomicU64::new(0),
        }
    }

    /// Raises the flag, and waits until so many have.
    pub fn raise(&self, threads: u64) {
        self.raised.fetch_add(1, Ordering::SeqCst);
        for _ in 0..MOST_TURNS {
            if self.raised.load(Ordering::SeqCst) >= threads {
                return;
            }
            thread::yield_now();
        }
        self.missed.fetch_add(1, Ordering::SeqCst);
    }

    /// Whether so many raised it, of whom none waited in vain.
    pub fn was_raised_by(&self, threads: u64) -> bool {
        self.raised.load(Ordering::SeqCst) == threads && self.missed.load(Ordering::SeqCst) == 0
    }
}

/// Yields now and then, as a mixed count of the calls says.
#[derive(Drop)]
pub struct Yields {
    calls: AtomicU64,
}

impl Yields {
    /// No call yet.
    pub fn new() -> Yields {
        Yields {
            calls: AtomicU64::new(0),
        }
    }

    fn pass(&self) {
        let call = self.calls.fetch_add(1, Ordering::SeqCst);
        if call.wrapping_mul(0x9e37_79b9_7f4a_7c15) >> 62 == 0 {
            thread::yield_now();
        }
    }
}

impl bench_run::Gate for Yields {
    fn before(&self, _seat: u32, _slot: u32) {
        self.pass();
    }

    fn after(&self, _seat: u32, _slot: u32) {
        self.pass();
    }
}

impl verdicts::Gate for Yields {
    fn before(&self, _worker: u32, _pair: u32) {
        self.pass();
    }

    fn after(&self, _worker: u32, _pair: u32) {
        self.pass();
    }
}
