// The word of one slot, which counts the puts of that slot: all that knows of bits in words.

ghost use Rattle.std.specs.Prelude.{◌≡◌, ◌<◌, nat_lt};
ghost use Rattle.plays.specs.Words.{contribution, arrivals_in, field, shown_in, left_in};
ghost use Rattle.plays.specs.Tallies.{word_in};

use crate::puts::Put;
use message_tree::Item;

// One put in each field of a word. A field has ten bits, and no slot has more than 64 puts.
const ARRIVED: u64 = 1;

const ZERO: u64 = 1 << 10;

const AGAIN: u64 = 1 << 20;

const STOP: u64 = 1 << 30;

const LISTEN: u64 = 1 << 40;

const CLAIM: u64 = 1 << 50;

// What a field counts is below this.
const FIELD: u64 = 1 << 10;

impl Put {
    /// What the put adds to the word of its slot.
    pub fn contribution(self) -> u64
        ensures { result ≡ contribution self }
    {
        ARRIVED
            + match self {
                Put::Drive(true) => 0,
                Put::Drive(false) => ZERO,
                Put::Again => AGAIN,
                Put::Stop => STOP,
                Put::Listen => LISTEN,
                Put::Claim => CLAIM,
            }
    }
}

/// What the word of a slot tells whoever looks at it.
#[derive(Clone, Copy, PartialEq, Eq)]
pub struct Tally {
    word: u64,
}

impl Tally {
    /// The tally of a slot whose word this is.
    pub fn new(word: u64) -> Tally
        ensures { word_in result ≡ word }
    {
        Tally { word }
    }

    /// How many have put in the slot.
    pub fn arrivals(&self) -> u32
        ensures { result ≡ arrivals_in (word_in self.now) }
    {
        self.count(ARRIVED)
    }

    /// The item that the wire shows, where all who are live have put and the targets' bit is `answer`.
    pub fn shown(&self, answer: bool) -> Item
        ensures { result ≡ shown_in (word_in self.now) answer }
    {
        if self.has(ZERO) {
            Item::Sent(false)
        } else if self.has(AGAIN) {
            Item::Again
        } else if self.has(STOP) {
            Item::Stop
        } else if self.has(LISTEN) {
            Item::Heard(answer)
        } else if self.has(CLAIM) {
            Item::Claim
        } else {
            Item::Sent(true)
        }
    }

    /// How many of `live` stay live after the slot, where all of them have put: those who put a 0, if somebody did.
    pub fn left(&self, live: u32) -> u32
        ensures { result ≡ left_in (word_in self.now) live }
    {
        if self.has(ZERO) {
            self.count(ZERO)
        } else {
            live
        }
    }

    // what the field counts in which `one` is one put
    fn count(&self, one: u64) -> u32
        requires { 0 < one }
        ensures { result ≡ field one (word_in self.now) }
    {
        (self.word / one % FIELD) as u32
    }

    fn has(&self, one: u64) -> bool
        requires { 0 < one }
        ensures { result ≡ nat_lt 0 (field one (word_in self.now)) }
    {
        0 < self.count(one)
    }
}
