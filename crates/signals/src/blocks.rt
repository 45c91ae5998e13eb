// Dumps that are read block by block.

use run_parts::devices::reading::{BLOCK, READS};
use run_parts::{Input, RunError};
use std::alloc::Global;

/// Who is given the blocks of a dump.
pub(crate) trait Blocks {
    /// The next block, and whether more are wanted.
    fn block(&mut self, block: &[u8]) -> Result<bool, RunError>;
}

/// Hands over a dump block by block, until no more are wanted. Whether its end was met.
pub(crate) fn read_blocks<J: Input, B: Blocks>(
    alloc: Global,
    vcd: &mut J,
    blocks: &mut B,
) -> Result<bool, RunError> {
    let mut block = vec![in alloc; 0u8; BLOCK]?;
    for _ in 0..READS {
        let Ok(count) = vcd.read(block.as_mut_slice()) else {
            return Err(RunError::Read);
        };
        if count == 0 {
            return Ok(true);
        }
        if !blocks.block(block.as_slice().get(..count).unwrap_or(&[]))? {
            return Ok(false);
        }
    }
    Ok(false)
}

/// The same of a dump all of whose blocks are wanted.
pub(crate) fn read_all<J: Input, B: Blocks>(
    alloc: Global,
    vcd: &mut J,
    blocks: &mut B,
) -> Result<(), RunError> {
    if read_blocks(alloc, vcd, blocks)? {
        Ok(())
    } else {
        Err(RunError::Read)
    }
}
