// How many bytes a controller reads.

ghost use Rattle.std.specs.Prelude.{◌≡◌, ◌<◌, ◌≤◌, ◌^◌, ◌↔◌, IsTrue, IsSome, IfSome};

/// A range of numbers of bytes, from 1 to 255. The controller ends its read after any number of bytes in the range, as
/// it likes.
#[derive(Clone, Copy, PartialEq, Eq)]
pub struct Count {
    least: u8,
    greatest: u8,
    ghost positive: { 0 < least },
    ghost ordered: { least ≤ greatest },
    ghost is_byte: { greatest < 2 ^ 8 },
}

impl Count {
    ghost use Rattle.message_tree.specs.Counts.{least_of, greatest_of, Meet};

    /// Exactly `n` bytes, or `None` for 0.
    pub fn new(n: u8) -> Option<Count>
        ensures valid { IsSome result ↔ (0 < n) }
        ensures value { IfSome result (λ c. (least_of c ≡ n) × (greatest_of c ≡ n)) }
    {
        Count::between(n, n)
    }

    /// From `least` to `greatest` bytes, or `None` where `least` is 0 or greater than `greatest`.
    pub fn between(least: u8, greatest: u8) -> Option<Count>
        ensures valid { IsSome result ↔ ((0 < least) × (least ≤ greatest)) }
        ensures value { IfSome result (λ c. (least_of c ≡ least) × (greatest_of c ≡ greatest)) }
    {
        if 0 < least && least <= greatest {
            Some(Count { least, greatest })
        } else {
            None
        }
    }

    /// The least number of bytes.
    pub fn least(&self) -> u8
        ensures { result ≡ least_of self.now }
    {
        self.least
    }

    /// The greatest number of bytes.
    pub fn greatest(&self) -> u8
        ensures { result ≡ greatest_of self.now }
    {
        self.greatest
    }

    /// Whether some number of bytes lies in both ranges.
    pub fn meets(&self, other: &Count) -> bool
        ensures { IsTrue result ↔ Meet self.now other.now }
    {
        other.least <= self.greatest && self.least <= other.greatest
    }
}
