// What is called round each piece of work.

/// Called by a worker before and after it works on a pair, or on a place of two senders. Worker 0 is the thread of the
/// caller, or stands for it.
pub trait Gate {
    fn before(&self, worker: u32, pair: u32);

    fn after(&self, worker: u32, pair: u32);
}

/// Does nothing.
pub struct NoGate;

impl Gate for NoGate {
    fn before(&self, _worker: u32, _pair: u32) {}

    fn after(&self, _worker: u32, _pair: u32) {}
}
