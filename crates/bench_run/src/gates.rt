// What is called round each slot of a player.

/// Called by a player with the place of its seat among the starters and with a slot: before it puts there, and once it
/// has seen the slot complete.
pub trait Gate {
    fn before(&self, seat: u32, slot: u32);

    fn after(&self, seat: u32, slot: u32);
}

/// Does nothing.
pub struct NoGate;

impl Gate for NoGate {
    fn before(&self, _seat: u32, _slot: u32) {}

    fn after(&self, _seat: u32, _slot: u32) {}
}
