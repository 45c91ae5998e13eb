// How refusals are written that the program writes otherwise, or not.

use bus_bench::OpenError;
use certificate::{CertError, CertFault};
use plan_text::PlanError;
use std::alloc::{AllocError, Global};
use std::fmt::Display;
use verifying::AcceptError;

fn is_written<T: Display>(alloc: Global, error: &T, wanted: &str) -> Result<bool, AllocError> {
    let text = format!(in alloc; "{error}")?;
    Ok(text.as_str() == wanted)
}

#[test]
fn refusals_are_written_with_their_codes(rt: HostRuntime) {
    let alloc = rt.alloc();
    let wrong = CertError::Wrong(CertFault::TooDeep(4));
    let plan = AcceptError::Plan(PlanError::Unexpected(2));
    assert!(rt; is_written(alloc, &wrong, "C3 line 4") == Ok(true));
    assert!(rt; is_written(alloc, &CertError::NoMemory, "C4") == Ok(true));
    assert!(rt; is_written(alloc, &plan, "P3 line 2") == Ok(true));
    assert!(rt; is_written(alloc, &AcceptError::NoMemory, "memory") == Ok(true));
    // the program prints `memory` in its place
    assert!(rt; is_written(alloc, &OpenError::NoMemory, "B4") == Ok(true));
}
