// Values as JSON.

use serde::Serialize;
use std::alloc::{AllocError, Global};

/// A value as JSON.
///
/// # Errors
///
/// Where an allocation fails. (These values have no text that JSON refuses.)
pub fn json<T: Serialize>(alloc: Global, value: &T) -> Result<String, AllocError> {
    match serde_json::to_string(alloc, value) {
        Ok(text) => Ok(text),
        Err(_) => Err(AllocError),
    }
}
