// How much a plan may hold. The limits are ours.

/// The most messages of a plan.
pub const MOST_MESSAGES: u32 = 256;

/// The most controllers of a plan.
pub const MOST_CONTROLLERS: u32 = 32;

/// The most interrupts of a plan.
pub const MOST_INTERRUPTS: u32 = 32;

/// The most sendings of all controllers of a plan together.
pub const MOST_SENDINGS: u32 = 512;

/// The most participants of a plan: its sendings and its interrupts.
pub const MOST_PARTICIPANTS: u32 = 544;

/// The most bytes on one path of a message: headers, data bytes and bytes that are read.
pub const MOST_BYTES: u32 = 256;

/// The most nodes of a message: headers and data bytes that the plan writes down.
pub const MOST_NODES: u32 = 4096;

/// How many addresses there are: seven bits (UM10204, 3.1.10).
pub const ADDRESSES: u32 = 128;
