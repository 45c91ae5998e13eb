// Where two headers or two data bytes may part.

ghost use Rattle.std.specs.Prelude.{◌≡◌, ◌≢◌, ℕ, true, false, None, [], ◌∷◌, ◌++◌, ◌<◌, ◌↔◌, List, IsTrue};
ghost use Rattle.std.specs.Int.{bit_at};
ghost use Rattle.message_tree.specs.Bits.{SplitAt};
ghost use Rattle.message_tree.specs.Patterns.{address_bits, pattern_bits};
ghost use Rattle.message_tree.specs.Texts.{Allows};
ghost use Rattle.arbitration.specs.Spans.{IsSpan};
ghost use Rattle.arbitration.specs.Choices.{AreChoices, HasDigit, IsBefore};
ghost use Rattle.arbitration.specs.Ways.{ArePartings};

use crate::spans::{Outcomes, Slots};
use message_tree::{Address, Bit, Pattern};

/// Which of eight bits may be sent as 0, and which as 1: for the bit at place k the digit of value 2 to the power k.
#[derive(Clone, Copy)]
pub(crate) struct Choices {
    zero: u8,
    one: u8,
}

impl Choices {
    /// Those of a header: the address and the direction (UM10204, 3.1.10).
    pub(crate) fn of_header(a: &Address, direction: Bit) -> Choices
        ensures { AreChoices (address_bits a.now ++ direction ∷ []) result }
    {
        Choices::of(&a.header(direction))
    }

    /// Those of a data byte (UM10204, 3.1.5).
    pub(crate) fn of_byte(p: &Pattern) -> Choices
        ensures { AreChoices (pattern_bits p.now) result }
    {
        Choices::of(&p.bits())
    }

    fn of(bits: &[Bit; 8]) -> Choices
        ensures { AreChoices bits.now result }
    {
        let mut zero = 0;
        let mut one = 0;
        for k in 0..8u8 {
            let bit = bits[k as usize];
            zero = with_digit(zero, k, may_be(bit, false));
            one = with_digit(one, k, may_be(bit, true));
        }
        Choices { zero, one }
    }

    /// A number for each.
    pub(crate) fn number(self) -> u64 {
        u64::from(self.zero) << 8 | u64::from(self.one)
    }

    // The places at which the two bits are known and different.
    #[inline(always)]
    fn splits(self, other: Choices) -> u8
        ensures { (bs cs : List Bit) → AreChoices bs self → AreChoices cs other →
            (k : ℕ) → HasDigit result k ↔ SplitAt bs cs k }
    {
        !((self.zero & other.zero) | (self.one & other.one))
    }

    /// The places at which one of the two may win.
    pub(crate) fn partings(self, other: Choices) -> Outcomes
        ensures { (bs cs : List Bit) → AreChoices bs self → AreChoices cs other → ArePartings bs cs result }
    {
        let before = up_to_first(self.splits(other));
        Outcomes {
            both: None,
            first: places(self.zero & other.one & before),
            second: places(other.zero & self.one & before),
        }
    }

    /// Whether the two always part.
    pub(crate) fn always_part(self, other: Choices) -> bool
        ensures { (bs cs : List Bit) → AreChoices bs self → AreChoices cs other →
            (IsTrue result ↔ ((k : ℕ) × SplitAt bs cs k)) }
    {
        self.splits(other) != 0
    }

    /// Whether the choices are the same.
    #[inline(always)]
    pub(crate) fn is_same(self, other: Choices) -> bool
        ensures { result ≡ true → self ≡ other }
    {
        self.zero == other.zero && self.one == other.one
    }
}

/// Whether two data bytes are the same.
#[inline(always)]
pub(crate) fn is_same(a: &Pattern, b: &Pattern) -> bool
    ensures { result ≡ true → a.now ≡ b.now }
{
    a == b
}

// Whether the bit may be sent so.
fn may_be(bit: Bit, value: bool) -> bool
    ensures { IsTrue result ↔ Allows bit value }
{
    match bit {
        Bit::Zero => !value,
        Bit::One => value,
        Bit::Either => true,
    }
}

// These digits and, where `is` holds, digit `k`.
#[inline(always)]
fn with_digit(digits: u8, k: u8, is: bool) -> u8
    requires { k < 8 }
    ensures set { is ≡ true → HasDigit result k }
    ensures same { is ≡ false → result ≡ digits }
    ensures others { (j : ℕ) → j ≢ k → bit_at result j ≡ bit_at digits j }
{
    if is { digits | 1 << k } else { digits }
}

// The places up to the first of these, and with it.
#[inline(always)]
fn up_to_first(places: u8) -> u8
    ensures { (k : ℕ) → k < 8 → (HasDigit result k ↔ IsBefore places k) }
{
    if places == 0 {
        u8::MAX
    } else {
        ((2u32 << places.trailing_zeros()) - 1) as u8
    }
}

// The first and the last of these places.
#[inline(always)]
fn places(digits: u8) -> Option<Slots>
    ensures { IsSpan (HasDigit digits) result }
{
    if digits == 0 {
        return None;
    }
    Some(Slots {
        earliest: digits.trailing_zeros(),
        latest: 7 - digits.leading_zeros(),
    })
}
