// Readers and writers that say whether they failed, and the two loops over them.

pub mod opened;
pub mod reading;
pub mod traits;
pub mod watched;
pub mod writing;
