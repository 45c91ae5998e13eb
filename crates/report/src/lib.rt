//! The reports of the program over any readers and writers.
#![tactic(auto)]

mod blocks;
pub mod captures;
pub mod certificates;
pub mod checked;
pub mod checks;
pub mod faulty;
pub mod laws;
pub mod lines;
pub mod live;
pub mod telling;

pub use captures::{run_capture, run_capture_of, write_capture};
pub use certificates::{certify_found, run_certify};
pub use checked::{check_found, check_plan};
pub use checks::{run_check, run_check_with, status_of};
pub use faulty::{FaultyReader, FaultyWriter};
pub use lines::{check_report, push_count, push_fault};
pub use live::live_capture;
pub use run_parts::{Input, Opened, Output, RunError, Status, Watched, read_within, write_report};
pub use telling::{CaptureCounts, CaptureReport, Telling};
pub use vcd_read::{Probe, Wrong};
pub use verdicts::{Checked, Gate, NoGate};
pub use verifying::{
    Answer, Answered, answer_line, find_plan, run_verify, status_of_answer, verify_found,
    verify_plan,
};
