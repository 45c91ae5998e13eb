// Pairs of signals that look like the two lines of a bus: the events are those of a capture (docs/CAPTURES.md, bus events),
// found for all pairs at once. Of signals that are LOW at the same times, and of what a single device pulls, the bus is told
// once.

use crate::masks::{MOST, Mask};
use std::alloc::{AllocError, Global};
use vcd_read::Level;

/// A signal whose level differs after a time stamp from that before.
#[derive(Clone, Copy)]
pub(crate) struct Change {
    pub(crate) signal: usize,
    pub(crate) before: Level,
    pub(crate) now: Level,
}

/// Two signals that look like the two lines of a bus, and how many of its transactions that count a STOP ended.
#[derive(Clone, Copy)]
pub(crate) struct Bus {
    pub(crate) scl: usize,
    pub(crate) sda: usize,
    pub(crate) stopped: u32,
}

// What two signals have shown, the one as SCL and the other as SDA.
#[derive(Clone, Copy)]
struct Pair {
    // how often SCL had risen at the last START or repeated START
    rises: u64,
    // how many transactions a STOP ended, and how many of these count
    ended: u32,
    stopped: u32,
    // of those that count, from START or repeated START to the next of these or to STOP: those of whole bytes, and others
    whole: u32,
    broken: u32,
}

const UNSEEN: Pair = Pair {
    rises: 0,
    ended: 0,
    stopped: 0,
    whole: 0,
    broken: 0,
};

// One signal: as SDA, those that may be its SCL, those with which the bus is free, and busy, and those with which its last
// transaction counts.
#[derive(Clone, Copy)]
struct Signal {
    likely: Mask,
    free: Mask,
    busy: Mask,
    counted: Mask,
    // those that were LOW whenever this one came to LOW, and those that were not LOW whenever this one left it
    low_with: Mask,
    left_with: Mask,
    // how often it has risen
    rises: u64,
}

// So many more broken ones than whole ones, and a pair is given up: what it shows from then on takes no time.
const PATIENCE: u32 = 256;

/// The pairs of 256 signals at most.
#[derive(Drop)]
pub(crate) struct Buses {
    count: usize,
    // the levels before the time stamp
    known: Mask,
    high: Mask,
    signals: Vec<Signal>,
    // for each signal as SDA, each other as SCL
    pairs: Vec<Pair>,
}

impl Buses {
    /// So many signals, of which nothing is known.
    pub(crate) fn new(alloc: Global, signals: usize) -> Result<Buses, AllocError> {
        let count = signals.min(MOST);
        let mut all = Mask::empty();
        for number in 0..count {
            all.set(number, true);
        }
        let signal = Signal {
            likely: all,
            free: Mask::empty(),
            busy: Mask::empty(),
            counted: Mask::empty(),
            low_with: all,
            left_with: all,
            rises: 0,
        };
        Ok(Buses {
            count,
            known: Mask::empty(),
            high: Mask::empty(),
            signals: vec![in alloc; signal; count]?,
            pairs: vec![in alloc; UNSEEN; count.saturating_mul(count)]?,
        })
    }

    /// The changes of a time stamp, each of another signal, and whether transactions count that begin then.
    pub(crate) fn stamp(&mut self, changes: &[Change], counts: bool) {
        let was_high = self.high;
        for change in changes {
            self.known.set(change.signal, change.now != Level::Unknown);
            self.high.set(change.signal, change.now == Level::High);
        }
        let stays_high = was_high.and(&self.high);
        let low = self.known.without(&self.high);
        for change in changes {
            self.compare(change, &low);
            self.change(change, &stays_high, counts);
        }
    }

    // With those that are LOW now.
    fn compare(&mut self, change: &Change, low: &Mask) {
        if let Some(own) = self.signals.get_mut(change.signal) {
            if change.now == Level::Low {
                own.low_with = own.low_with.and(low);
            } else {
                own.left_with = own.left_with.without(low);
            }
        }
    }

    fn change(&mut self, change: &Change, stays_high: &Mask, counts: bool) {
        let signal = change.signal;
        match (change.before, change.now) {
            (Level::High, Level::Low) => self.falls(signal, stays_high, counts),
            (Level::Low, Level::High) => {
                self.stops(signal, stays_high);
                if let Some(own) = self.signals.get_mut(signal) {
                    own.rises = own.rises.saturating_add(1);
                }
            }
            (_, Level::Unknown) => self.unknown(signal),
            (Level::Unknown, now) => self.becomes_known(signal, now == Level::High),
            _ => {}
        }
    }

    // SDA falls: a START on a free bus, and a repeated START on a busy one.
    fn falls(&mut self, sda: usize, stays_high: &Mask, counts: bool) {
        let Some(own) = self.signals.get_mut(sda) else {
            return;
        };
        let Signal { free, busy, .. } = *own;
        let scls = stays_high.and(&own.likely);
        let begun = scls.and(&free);
        own.free = free.without(&begun);
        own.busy = busy.or(&begun);
        own.counted = if counts {
            own.counted.or(&begun)
        } else {
            own.counted.without(&begun)
        };
        let mut again = scls.and(&busy).and(&own.counted);
        let mut started = scls.and(&own.busy).and(&own.counted);
        for _ in 0..MOST {
            let Some(scl) = again.take_least() else {
                break;
            };
            self.part_ends(scl, sda);
        }
        for _ in 0..MOST {
            let Some(scl) = started.take_least() else {
                break;
            };
            self.part_begins(scl, sda);
        }
    }

    // SDA rises: a STOP.
    fn stops(&mut self, sda: usize, stays_high: &Mask) {
        let Some(own) = self.signals.get_mut(sda) else {
            return;
        };
        let Signal {
            free,
            busy,
            counted,
            ..
        } = *own;
        let scls = stays_high.and(&own.likely);
        own.free = free.or(&scls);
        own.busy = busy.without(&scls);
        let mut ended = scls.and(&busy);
        for _ in 0..MOST {
            let Some(scl) = ended.take_least() else {
                break;
            };
            let is_counted = counted.has(scl);
            if let Some(pair) = self.pair(scl, sda) {
                pair.ended = pair.ended.saturating_add(1);
                pair.stopped = pair.stopped.saturating_add(u32::from(is_counted));
            }
            if is_counted {
                self.part_ends(scl, sda);
            }
        }
    }

    fn part_begins(&mut self, scl: usize, sda: usize) {
        let rises = self.rises(scl).unwrap_or(0);
        if let Some(pair) = self.pair(scl, sda) {
            pair.rises = rises;
        }
    }

    // Whole bytes, each with its acknowledge, are nine bits each; then SCL rises once more.
    fn part_ends(&mut self, scl: usize, sda: usize) {
        let rises = self.rises(scl).unwrap_or(0);
        let Some(pair) = self.pair(scl, sda) else {
            return;
        };
        let rises = rises.saturating_sub(pair.rises);
        if rises > 1 && rises % 9 == 1 {
            pair.whole = pair.whole.saturating_add(1);
        } else {
            pair.broken = pair.broken.saturating_add(1);
        }
        if pair.broken.saturating_sub(pair.whole) >= PATIENCE {
            if let Some(own) = self.signals.get_mut(sda) {
                own.likely.set(scl, false);
            }
        }
    }

    fn pair(&mut self, scl: usize, sda: usize) -> Option<&mut Pair> {
        self.pairs
            .get_mut(sda.saturating_mul(self.count).saturating_add(scl))
    }

    // What the two have shown.
    fn shown(&self, scl: usize, sda: usize) -> Option<&Pair> {
        self.pairs
            .get(sda.saturating_mul(self.count).saturating_add(scl))
    }

    // As SDA it is on no bus, free or busy, with any other signal.
    fn forget(&mut self, signal: usize) {
        if let Some(own) = self.signals.get_mut(signal) {
            own.free = Mask::empty();
            own.busy = Mask::empty();
        }
    }

    fn rises(&self, signal: usize) -> Option<u64> {
        Some(self.signals.get(signal)?.rises)
    }

    fn unknown(&mut self, signal: usize) {
        self.forget(signal);
        for other in self.signals.iter_mut() {
            other.free.set(signal, false);
            other.busy.set(signal, false);
        }
    }

    // With each other signal that is known: the bus is free where both are HIGH.
    fn becomes_known(&mut self, signal: usize, is_high: bool) {
        let high = self.high;
        self.forget(signal);
        for (number, other) in self.signals.iter_mut().enumerate() {
            other.busy.set(signal, false);
            other.free.set(signal, is_high && high.has(number));
        }
        if let Some(own) = self.signals.get_mut(signal)
            && is_high
        {
            own.free = high;
        }
    }

    /// The pairs that look like a bus: some transaction that counts was ended by a STOP, more parts of these have whole bytes
    /// than not, SDA rises no more often than SCL, and they are no other pair's lines, in whole or in what one device pulls.
    pub(crate) fn found(&self, alloc: Global) -> Result<Vec<Bus>, AllocError> {
        let alike = self.alike(alloc)?;
        let mut found = Vec::new(alloc);
        for (number, bus) in alike.iter().enumerate() {
            if !self.is_another(number, bus, alike.as_slice()) {
                found.push(*bus)?;
            }
        }
        Ok(found)
    }

    // The same, with those that are another pair's lines.
    fn alike(&self, alloc: Global) -> Result<Vec<Bus>, AllocError> {
        let mut found = Vec::new(alloc);
        for scl in 0..self.count {
            for sda in 0..self.count {
                if let Some(stopped) = self.stopped(scl, sda) {
                    found.push(Bus { scl, sda, stopped })?;
                }
            }
        }
        Ok(found)
    }
}

impl Buses {
    // How many transactions of the two that count were ended by a STOP, where they look like a bus. For each bit SCL rises
    // once, and SDA once at most.
    fn stopped(&self, scl: usize, sda: usize) -> Option<u32> {
        if self.rises(sda)? > self.rises(scl)? {
            return None;
        }
        let pair = self.shown(scl, sda)?;
        (pair.stopped > 0 && pair.whole > pair.broken).then_some(pair.stopped)
    }

    // Whether the lines of a pair are those of another one, of which the first counts, or what one device pulls there.
    fn is_another(&self, number: usize, bus: &Bus, all: &[Bus]) -> bool {
        for (place, other) in all.iter().enumerate() {
            if place != number && self.pull(bus, other) {
                let is_it = if self.pull(other, bus) {
                    place < number
                } else {
                    self.sends_ones(other)
                };
                if is_it {
                    return true;
                }
            }
        }
        false
    }

    // Whether SDA rises at other times than STOPs. A signal that does not may say that a bus is busy, and have no bytes.
    fn sends_ones(&self, bus: &Bus) -> bool {
        match (self.rises(bus.sda), self.shown(bus.scl, bus.sda)) {
            (Some(rises), Some(pair)) => rises > u64::from(pair.ended),
            _ => false,
        }
    }

    // Whether both lines of the other pair are LOW whenever those of this one are.
    fn pull(&self, bus: &Bus, other: &Bus) -> bool {
        self.pulls(bus.scl, other.scl) && self.pulls(bus.sda, other.sda)
    }

    // Whether a signal is LOW whenever this one is.
    fn pulls(&self, signal: usize, other: usize) -> bool {
        match (self.signals.get(signal), self.signals.get(other)) {
            (Some(own), Some(line)) => own.low_with.has(other) && line.left_with.has(signal),
            _ => false,
        }
    }
}
