// A call with what it is made on.

use crate::words::Call;
use std::alloc::Global;

/// A call, and what it is made on.
#[derive(Clone, Copy)]
pub struct Task<'a> {
    pub alloc: Global,
    pub call: Call,
    /// What the first file has.
    pub first: &'a [u8],
    /// What the second file has.
    pub second: &'a [u8],
    /// The word after the names of the files.
    pub one: &'a str,
    /// The word after that.
    pub other: &'a str,
}
