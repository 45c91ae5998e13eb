//! Places in what a participant sends: what may come next there, and to which place each item leads. A place borrows the
//! plan, and no call here takes memory.
#![tactic(auto, unfolding(crate::specs::Places::rest_of))]

mod bytes;
pub mod cursor;
pub mod offers;
mod parts;

pub use cursor::Place;
pub use offers::Offered;
