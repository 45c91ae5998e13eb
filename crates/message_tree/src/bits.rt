// The bits of addresses and of data bytes, of which some may be open.

ghost use Rattle.std.specs.Prelude.{◌≡◌, ◌<◌, ◌≤◌, ◌^◌, [], ◌∷◌, ◌++◌, bit_and, MatchOption};
ghost use Rattle.std.specs.Int.{bit_at as digit};
ghost use Rattle.message_tree.specs.Bits.{bit_from, bits_below, IsFirstSplit, NeverSplit};
ghost use Rattle.message_tree.specs.Digits.{IsHighestOne};

/// A bit of a pattern.
#[derive(Clone, Copy, PartialEq, Eq)]
pub enum Bit {
    /// The bit is sent as 0.
    Zero,
    /// The bit is sent as 1.
    One,
    /// The bit is open: the participant sends 0 or 1, as it likes, in each run.
    Either,
}

/// The eight bits of a data byte, some of them open.
#[derive(Clone, Copy, PartialEq, Eq)]
pub struct Pattern {
    known: u8,
    value: u8,
    ghost known_is_byte: { known < 2 ^ 8 },
    ghost open_bits_are_zero: { bit_and value known ≡ value },
}

impl Pattern {
    ghost use Rattle.std.specs.Prelude.{slice_get};
    ghost use Rattle.message_tree.specs.Patterns.{pattern_bits};

    /// The byte whose bits are those of `value` where `known` has a 1, and open elsewhere.
    pub fn new(known: u8, value: u8) -> Self
        ensures { pattern_bits result ≡ bits_below 8 known value }
    {
        Pattern {
            known,
            value: value & known,
        }
    }

    /// The bit at place `k`, in the order of sending: place 0 is the bit of value 128 (UM10204, 3.1.5).
    pub fn bit(&self, k: u8) -> Bit
        requires { k < 8 }
        ensures { slice_get (pattern_bits self.now) k ≡ Some result }
    {
        bit_at(self.known, self.value, 7 - k)
    }

    /// All eight bits, in the order of sending.
    pub fn bits(&self) -> [Bit; 8]
        ensures { result ≡ pattern_bits self.now }
    {
        [
            self.bit(0),
            self.bit(1),
            self.bit(2),
            self.bit(3),
            self.bit(4),
            self.bit(5),
            self.bit(6),
            self.bit(7),
        ]
    }

    /// The first place, in the order of sending, at which both bits are known and different.
    pub fn first_split(&self, other: &Pattern) -> Option<u8>
        ensures { MatchOption result (NeverSplit (pattern_bits self.now) (pattern_bits other.now))
            (λ k. IsFirstSplit (pattern_bits self.now) (pattern_bits other.now) k) }
    {
        highest_one(8, self.known & other.known & (self.value ^ other.value))
    }
}

/// The seven bits of a target's address, some of them open (UM10204, 3.1.10).
#[derive(Clone, Copy, PartialEq, Eq)]
pub struct Address {
    known: u8,
    value: u8,
    ghost known_is_address: { known < 2 ^ 7 },
    ghost open_bits_are_zero: { bit_and value known ≡ value },
}

impl Address {
    ghost use Rattle.std.specs.Prelude.{slice_get};
    ghost use Rattle.message_tree.specs.Patterns.{address_bits};

    /// The address whose bits are those of `value` where `known` has a 1, and open elsewhere. The low seven bits of
    /// both are used.
    pub fn new(known: u8, value: u8) -> Self
        ensures { address_bits result ≡ bits_below 7 known value }
    {
        let low = known & 0x7f;
        Address {
            known: low,
            value: value & low,
        }
    }

    /// The bit at place `k`, in the order of sending: place 0 is the bit of value 64 (UM10204, 3.1.10).
    pub fn bit(&self, k: u8) -> Bit
        requires { k < 7 }
        ensures { slice_get (address_bits self.now) k ≡ Some result }
    {
        bit_at(self.known, self.value, 6 - k)
    }

    /// All seven bits, in the order of sending.
    pub fn bits(&self) -> [Bit; 7]
        ensures { result ≡ address_bits self.now }
    {
        [
            self.bit(0),
            self.bit(1),
            self.bit(2),
            self.bit(3),
            self.bit(4),
            self.bit(5),
            self.bit(6),
        ]
    }

    /// The eight bits of a header with this direction bit, in the order of sending (UM10204, 3.1.10).
    pub fn header(&self, direction: Bit) -> [Bit; 8]
        ensures { result ≡ address_bits self.now ++ direction ∷ [] }
    {
        let [a, b, c, d, e, f, g] = self.bits();
        [a, b, c, d, e, f, g, direction]
    }

    /// The first place, in the order of sending, at which both bits are known and different.
    pub fn first_split(&self, other: &Address) -> Option<u8>
        ensures { MatchOption result (NeverSplit (address_bits self.now) (address_bits other.now))
            (λ k. IsFirstSplit (address_bits self.now) (address_bits other.now) k) }
    {
        highest_one(7, self.known & other.known & (self.value ^ other.value))
    }
}

const _: () = prove!(size_of::<Pattern>() == 2);

const _: () = prove!(size_of::<Address>() == 2);

// The bit of value 2 ^ place.
fn bit_at(known: u8, value: u8, place: u8) -> Bit
    requires { place < 8 }
    ensures { result ≡ bit_from (digit known place) (digit value place) }
{
    if known >> place & 1 == 0 {
        Bit::Either
    } else if value >> place & 1 == 0 {
        Bit::Zero
    } else {
        Bit::One
    }
}

// The place of the highest 1 among the low `width` bits, counted from the highest of them.
fn highest_one(width: u8, digits: u8) -> Option<u8>
    requires within { width ≤ 8 }
    requires fits { digits < 2 ^ width }
    ensures { MatchOption result (digits ≡ 0) (λ k. IsHighestOne width digits k) }
{
    if digits == 0 {
        None
    } else {
        Some(digits.leading_zeros() as u8 - (8 - width))
    }
}
