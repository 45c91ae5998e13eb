// What a worker found.

use pair_queue::Thief;
use std::alloc::AllocError;

/// What was found of a number.
#[derive(Drop)]
pub(crate) struct Found<X> {
    pub(crate) number: u32,
    pub(crate) value: X,
}

/// A thief and its worker's number.
#[derive(Drop)]
pub(crate) struct Job {
    pub(crate) worker: u32,
    pub(crate) thief: Thief,
}

/// A thief that has ended its work, and what it found.
#[derive(Drop)]
pub(crate) struct Part<X> {
    pub(crate) thief: Thief,
    pub(crate) found: Result<Vec<Found<X>>, AllocError>,
}
