// How long a player waits for the others.

use std::sync::atomic::{AtomicBool, Ordering};
use std::thread;
use std::time::{Clock, Duration};

/// How often in a row a player that is told to wait yields its thread, before it naps.
const MOST_YIELDS: u32 = 64;

/// How often a player naps in its whole play, before it gives its seat back. The others may be threads that have not
/// begun yet, or that a gate holds up. A nap takes some 60 microseconds on a quiet machine and a few milliseconds on a
/// busy one, where a yield can give away a whole time slice.
const MOST_NAPS: u32 = 2_000;

const NAP_IN_MICROSECONDS: u64 = 1;

/// The most looks at a slot that is not complete.
pub(crate) const MOST_LOOKS: u32 = MOST_YIELDS + MOST_NAPS + 1;

/// The patience of one player.
#[derive(Drop)]
pub(crate) struct Patience<'g> {
    // How often it has napped.
    naps: u32,
    // Set by the first player that waits in vain: the others then give their seats back too, without waiting as long.
    given_up: &'g AtomicBool,
}

impl<'g> Patience<'g> {
    /// The patience of a player that has not waited yet.
    pub(crate) fn new(given_up: &'g AtomicBool) -> Patience<'g> {
        Patience { naps: 0, given_up }
    }

    /// Lets other threads run, where the player waits on after so many looks. Whether it does.
    pub(crate) fn waits<R: Clock>(&mut self, rt: &R, looks: u32) -> bool {
        if self.given_up.load(Ordering::SeqCst) {
            return false;
        }
        if looks < MOST_YIELDS {
            thread::yield_now();
        } else if self.naps < MOST_NAPS {
            self.naps += 1;
            thread::sleep(rt, Duration::from_micros(NAP_IN_MICROSECONDS));
        } else {
            self.given_up.store(true, Ordering::SeqCst);
            return false;
        }
        true
    }
}
