// A number by which equal frames find one another. Nothing rests on it: who has the same one is compared.

use crate::bits::Choices;
use crate::frames::{NumberedFrame, NumberedRead, NumberedWrite};
use crate::rows::{Next, Row};

/// The same number for two frames that are equal. Others may have it too.
pub(crate) fn likeness(frame: &NumberedFrame) -> u64 {
    match frame {
        NumberedFrame::Write(write) => of_write(write),
        NumberedFrame::Read(read) => of_read(read),
    }
}

fn of_write(write: &NumberedWrite) -> u64 {
    let code = with_bits(0, write.header);
    with_next(with_row(code, &write.acked), write.refused)
}

fn of_read(read: &NumberedRead) -> u64 {
    let code = with_bits(0, read.header);
    let code = with(code, u64::from(read.count.least()));
    let code = with(code, u64::from(read.count.greatest()));
    with_next(with_next(code, read.after), read.refused)
}

fn with_row(code: u64, row: &Row) -> u64 {
    let mut code = code;
    for byte in &row.bytes {
        code = with_next(with_bits(code, byte.choices), byte.refused);
    }
    with_next(code, row.last)
}

fn with_next(code: u64, next: Next) -> u64 {
    match next {
        Next::Stop => with(code, 0),
        Next::Again(n) => with(code, u64::from(n).saturating_add(1)),
    }
}

// The choices are one for each address with its direction, and one for each data byte.
fn with_bits(code: u64, bits: Choices) -> u64 {
    with(code, bits.number())
}

// One step of the hash FNV-1a, over more than a byte.
fn with(code: u64, part: u64) -> u64 {
    (code ^ part).wrapping_mul(0x0100_0000_01b3)
}
