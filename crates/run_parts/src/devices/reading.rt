// The loop over a reader.

ghost use Rattle.std.specs.Prelude.{◌<◌, length, IfOk, IfErr};
ghost use Rattle.run_parts.specs.Reading.{ReadsAll, ReadingStops};

use super::traits::Input;
use crate::errors::RunError;
use std::alloc::Global;

/// How many bytes one call to a reader asks for: 64 KiB.
pub const BLOCK: usize = 65_536;

/// The most calls to one reader in a run.
pub const READS: u32 = u32::MAX;

/// All bytes of the reader, which is called at most `limit` times. The call that gives no bytes is the end, and counts
/// as a call.
///
/// # Errors
///
/// `Read` where the reader failed, which is then not called again, or where `limit` calls met no end. `NoMemory` where
/// an allocation failed before that.
pub fn read_within<I: Input>(alloc: Global, reader: &mut I, limit: u32) -> Result<Vec<u8>, RunError>
    ensures all { IfOk result (λ bytes. ReadsAll I.reader limit reader.old bytes.items reader.new) }
    ensures stops { IfErr result (λ error. ReadingStops I.reader limit reader.old error reader.new) }
{
    let mut block = vec![in alloc; 0u8; BLOCK]?;
    read_blocks(alloc, reader, block.as_mut_slice(), limit)
}

// The same, with a block of memory for what one call gives.
fn read_blocks<I: Input>(
    alloc: Global,
    reader: &mut I,
    block: &mut [u8],
    limit: u32,
) -> Result<Vec<u8>, RunError>
    requires { 0 < length block.old }
    ensures all { IfOk result (λ bytes. ReadsAll I.reader limit reader.old bytes.items reader.new) }
    ensures stops { IfErr result (λ error. ReadingStops I.reader limit reader.old error reader.new) }
{
    let mut bytes = Vec::new(alloc);
    for _ in 0..limit {
        match reader.read(block) {
            Ok(0) => return Ok(bytes),
            Ok(count) => bytes.extend_from_slice(&block[..count])?,
            Err(_) => return Err(RunError::Read),
        }
    }
    Err(RunError::Read)
}
