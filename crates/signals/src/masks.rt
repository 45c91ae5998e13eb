// Sets of signals.

/// How many signals a set can have: among so many the lines of a bus are looked for.
pub const MOST: usize = 256;

const WORDS: usize = 4;

/// A set of numbers below 256.
#[derive(Clone, Copy)]
pub(crate) struct Mask {
    words: [u64; WORDS],
}

impl Mask {
    pub(crate) fn empty() -> Mask {
        Mask { words: [0; WORDS] }
    }

    /// Puts this number in, or takes it out. A number of 256 or more is in no set.
    pub(crate) fn set(&mut self, number: usize, is_in: bool) {
        let bit = 1u64.wrapping_shl((number % 64) as u32);
        if let Some(word) = self.words.get_mut(number / 64) {
            if is_in {
                *word |= bit;
            } else {
                *word &= !bit;
            }
        }
    }

    pub(crate) fn has(&self, number: usize) -> bool {
        let bit = 1u64.wrapping_shl((number % 64) as u32);
        match self.words.get(number / 64) {
            Some(word) => word & bit != 0,
            None => false,
        }
    }

    /// The numbers that are in both.
    pub(crate) fn and(&self, other: &Mask) -> Mask {
        let [a, b, c, d] = self.words;
        let [e, f, g, h] = other.words;
        Mask {
            words: [a & e, b & f, c & g, d & h],
        }
    }

    /// The numbers that are in this one and not in the other.
    pub(crate) fn without(&self, other: &Mask) -> Mask {
        let [a, b, c, d] = self.words;
        let [e, f, g, h] = other.words;
        Mask {
            words: [a & !e, b & !f, c & !g, d & !h],
        }
    }

    /// The numbers that are in one of the two.
    pub(crate) fn or(&self, other: &Mask) -> Mask {
        let [a, b, c, d] = self.words;
        let [e, f, g, h] = other.words;
        Mask {
            words: [a | e, b | f, c | g, d | h],
        }
    }

    /// The least number in it, which is taken out.
    pub(crate) fn take_least(&mut self) -> Option<usize> {
        let mut base = 0usize;
        for word in &mut self.words {
            if *word != 0 {
                let low = word.trailing_zeros() as usize;
                *word &= word.wrapping_sub(1);
                return Some(base.saturating_add(low));
            }
            base = base.saturating_add(64);
        }
        None
    }
}
