// A file that is read once more.

use std::alloc::Global;
use std::io::{self, Read, Seek, SeekFrom};

/// How many bytes one call asks for.
pub const BLOCK: usize = 65_536;

// The most bytes of a file that are looked at: 2 to the power 48.
const BLOCKS: u64 = 1 << 32;

/// Who is given a file block by block.
pub trait Reading {
    /// The next block, and whether more are wanted.
    fn block(&mut self, block: &[u8]) -> io::Result<bool>;
}

/// Hands over the file from its beginning on. Whether its end was met.
pub fn read_again<F: Read + Seek, G: Reading>(
    alloc: Global,
    file: &mut F,
    reading: &mut G,
) -> io::Result<bool> {
    file.seek(SeekFrom::Start(0))?;
    let mut room = vec![in alloc; 0u8; BLOCK]?;
    for _ in 0..BLOCKS {
        let count = file.read(room.as_mut_slice())?;
        if count == 0 {
            return Ok(true);
        }
        let block = room.as_slice().get(..count).unwrap_or(b"".as_slice());
        if !reading.block(block)? {
            return Ok(false);
        }
    }
    Ok(false)
}

/// Up to so many bytes of the file from this place on.
pub fn part<F: Read + Seek>(
    alloc: Global,
    file: &mut F,
    from: u64,
    most: usize,
) -> io::Result<Vec<u8>> {
    file.seek(SeekFrom::Start(from))?;
    let mut room = vec![in alloc; 0u8; most]?;
    let mut bytes = Vec::new(alloc);
    for _ in 0..most {
        let left = most.saturating_sub(bytes.len());
        let room = room.as_mut_slice().get_mut(..left).unwrap_or(&mut []);
        let count = file.read(room)?;
        if count == 0 {
            break;
        }
        bytes.extend_from_slice(room.get(..count).unwrap_or(b"".as_slice()))?;
    }
    Ok(bytes)
}
