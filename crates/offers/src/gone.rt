// What items no longer send, in words.

use edits::{Bits, spelled_bits};
use message_tree::Count;
use std::alloc::{AllocError, Global};

/// The values of a byte or of an address: `0x00 to 0x7F` where the open bits come last, and else the bits as the text has them.
///
/// # Errors
///
/// Where an allocation fails.
pub fn values_in(alloc: Global, bits: Bits, is_plan: bool) -> Result<String, AllocError> {
    let (least, greatest) = (bits.ones, bits.ones | bits.open);
    if bits.open == 0 {
        format!(in alloc; "0x{least:02X}")
    } else if bits.open & bits.open.wrapping_add(1) == 0 {
        format!(in alloc; "0x{least:02X} to 0x{greatest:02X}")
    } else {
        spelled_bits(alloc, bits, is_plan)
    }
}

/// How many bytes are read: `1 byte`, `3 to 34 bytes`.
///
/// # Errors
///
/// Where an allocation fails.
pub fn bytes_in(alloc: Global, counts: Count) -> Result<String, AllocError> {
    let (least, greatest) = (counts.least(), counts.greatest());
    if least != greatest {
        format!(in alloc; "{least} to {greatest} bytes")
    } else if least == 1 {
        format!(in alloc; "{least} byte")
    } else {
        format!(in alloc; "{least} bytes")
    }
}
