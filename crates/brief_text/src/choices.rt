// The blocks of values that a choice is cut into.

ghost use Rattle.std.specs.Prelude.{◌≡◌, ◌≤◌, ◌^◌, ◌+◌, length, true, slice_get};
ghost use Rattle.std.specs.Option.{option_map};
ghost use Rattle.brief_text.specs.Choices.{is_choice, allows_all, blocks_in, block_bits, chosen_bits, numbers};

use crate::syntax::{Choice, Lengths};
use message_tree::Pattern;

impl Choice {
    ghost use Rattle.brief_text.specs.Standing.{choice_of};

    /// Whether LO is not above HI, and some value is left.
    pub(crate) fn is_some(self) -> bool
        ensures { result ≡ is_choice (choice_of self) }
    {
        match self {
            Choice::Span { least, greatest } => least <= greatest,
            Choice::AllBut { least, greatest } => {
                least <= greatest && !(least == 0 && greatest == 255)
            }
        }
    }

    // Whether so many values from this one on are chosen.
    fn allows_all(self, first: u32, count: u32) -> bool
        requires { first + count ≤ 256 }
        ensures { result ≡ allows_all (choice_of self) first count }
    {
        match self {
            Choice::Span { least, greatest } => {
                least as u32 <= first && first + count <= greatest as u32 + 1
            }
            Choice::AllBut { least, greatest } => {
                first + count <= least as u32 || (greatest as u32) < first
            }
        }
    }

    /// The numbers of the blocks: from 1 on.
    pub(crate) fn numbers(self) -> Lengths
        requires { is_choice (choice_of self) ≡ true }
        ensures { result ≡ numbers (choice_of self) }
    {
        Lengths {
            least: 1,
            greatest: self.count(8, 0) as u8,
        }
    }

    // How many blocks there are among 2^power values from this one on.
    fn count(self, power: u32, first: u32) -> u32
        requires power { power ≤ 8 }
        requires values { first + 2 ^ power ≤ 256 }
        ensures count { result ≡ length (blocks_in (choice_of self) power first) }
        ensures small { result ≤ 2 ^ power }
    {
        if self.allows_all(first, size(power)) {
            1
        } else if power == 0 {
            0
        } else {
            let middle = first + size(power - 1);
            self.count(power - 1, first) + self.count(power - 1, middle)
        }
    }

    /// The bits of the block with this number.
    pub(crate) fn bits(self, number: u32) -> Pattern
        ensures { result ≡ chosen_bits (choice_of self) number }
    {
        match self.block(number.saturating_sub(1), 8, 0) {
            Some(bits) => bits,
            None => Pattern::new(0, 0),
        }
    }

    // The bits of the one behind so many of the blocks among 2^power values from this one on.
    fn block(self, before: u32, power: u32, first: u32) -> Option<Pattern>
        requires power { power ≤ 8 }
        requires values { first + 2 ^ power ≤ 256 }
        ensures { result ≡ option_map block_bits (slice_get (blocks_in (choice_of self) power first) before) }
    {
        if self.allows_all(first, size(power)) {
            if before == 0 {
                Some(Pattern::new((256 - size(power)) as u8, first as u8))
            } else {
                None
            }
        } else if power == 0 {
            None
        } else {
            let middle = first + size(power - 1);
            let count = self.count(power - 1, first);
            if before < count {
                self.block(before, power - 1, first)
            } else {
                self.block(before - count, power - 1, middle)
            }
        }
    }
}

// How many values a block has.
fn size(power: u32) -> u32
    requires { power ≤ 8 }
    ensures { result ≡ 2 ^ power }
{
    1 << power
}
