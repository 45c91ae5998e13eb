// Memory that is refused where a call asks for it.
//
// What refuses it stands outside the program, between it and the C library. It is told what to do by the size of an
// allocation that nobody would make: each such size is a word and a number.

use std::alloc::Global;

/// Which allocations are refused, numbered from 1.
#[derive(Clone, Copy)]
pub enum Refused {
    /// The one with this number.
    One(u32),
    /// The one with this number, and each one after it.
    From(u32),
}

// Each word is above the largest block that any machine has.
const ASK: usize = 1 << 62;

const STOP: usize = ASK + (1 << 56);

const ONE: usize = ASK + (2 << 56);

const FROM: usize = ASK + (3 << 56);

/// Whether allocations can be refused at all.
pub fn is_there(alloc: Global) -> bool {
    is_given(alloc, ASK)
}

/// Whether those allocations are refused that are named: of three the second alone, or the second and the third, or none
/// where the fourth is named.
pub fn obeys(alloc: Global) -> bool {
    given_of_three(alloc, Refused::One(2)) == 2
        && given_of_three(alloc, Refused::From(2)) == 1
        && given_of_three(alloc, Refused::One(4)) == 4
}

/// From here on these allocations are refused.
fn refuse(alloc: Global, refused: Refused) {
    let word = match refused {
        Refused::One(n) => ONE + n as usize,
        Refused::From(n) => FROM + n as usize,
    };
    is_given(alloc, word);
}

/// From here on every allocation is refused.
pub fn refuse_all(alloc: Global) {
    refuse(alloc, Refused::From(1));
}

/// From here on no allocation is refused. Says whether one was.
pub fn be_there_again(alloc: Global) -> bool {
    is_given(alloc, STOP)
}

// How many of three allocations are given, and one more where none is told as refused.
fn given_of_three(alloc: Global, refused: Refused) -> u32 {
    let mut given = 0u32;
    refuse(alloc, refused);
    for _ in 0..3 {
        if is_given(alloc, 8) {
            given = given.saturating_add(1);
        }
    }
    if be_there_again(alloc) {
        given
    } else {
        given.saturating_add(1)
    }
}

// Whether a block of so many bytes is given.
fn is_given(alloc: Global, bytes: usize) -> bool {
    Vec::<u8>::with_capacity(alloc, bytes).is_ok()
}
