// A repeated START or a STOP in the middle of a byte.

use capture_check::Mark;

/// What comes in the middle of a byte, and after how many of its nine bits.
#[derive(Clone, Copy)]
pub struct Cut {
    /// Whether it is a repeated START, and not a STOP.
    pub again: bool,
    pub bits: u64,
}

/// The repeated STARTs and the STOP of a transaction, as they come.
#[derive(Clone, Copy)]
pub struct Cuts {
    bits: u64,
}

impl Cuts {
    /// Before the first mark.
    pub fn new() -> Cuts {
        Cuts { bits: 0 }
    }

    /// What the next mark cuts short, if anything.
    pub fn next(&mut self, mark: Mark) -> Option<Cut> {
        let bits = self.bits;
        let again = match mark {
            Mark::Level(_) => {
                self.bits = bits.saturating_add(1) % 9;
                return None;
            }
            Mark::Again => true,
            Mark::Stop => false,
        };
        self.bits = 0;
        if bits == 0 {
            return None;
        }
        Some(Cut { again, bits })
    }
}
