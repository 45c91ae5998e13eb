//! What the runs of all commands have in common: the devices that they read and write, what stops them, their status, and
//! the parts of lines that several reports have.
#![tactic(auto)]

pub mod devices;
pub mod errors;
pub mod lines;
pub mod runs;

pub use devices::opened::Opened;
pub use devices::reading::read_within;
pub use devices::traits::{Input, Output};
pub use devices::watched::Watched;
pub use devices::writing::write_report;
pub use errors::RunError;
pub use lines::push_labels;
pub use runs::{Status, exit_code, write_lines};
