// The files that documents name, and the other way round.

use percent_encoding::{AsciiSet, NON_ALPHANUMERIC, percent_decode, utf8_percent_encode};
use std::alloc::{AllocError, Global};

const SCHEME: &str = "file://";

/// The path that a `file` URI names. None for another one, and where it is no text.
///
/// # Errors
///
/// Where an allocation fails.
pub fn path_of(alloc: Global, uri: &str) -> Result<Option<String>, AllocError> {
    let Some(path) = escaped_path(uri) else {
        return Ok(None);
    };
    let mut bytes = Vec::new(alloc);
    percent_decode(path.as_bytes()).append_to(&mut bytes)?;
    match str::from_utf8(bytes.as_slice()) {
        Ok(path) => Ok(Some(String::from_str(alloc, path)?)),
        Err(_) => Ok(None),
    }
}

// What stands in the URI from the first `/` of the path on. The host is this one.
fn escaped_path(uri: &str) -> Option<&str> {
    let rest = uri.strip_prefix(SCHEME)?;
    let path = rest.strip_prefix("localhost").unwrap_or(rest);
    if path.starts_with('/') {
        Some(path)
    } else {
        None
    }
}

/// The URI of a path from the root on, without `.` and `..`.
///
/// # Errors
///
/// Where an allocation fails.
pub fn uri_of(alloc: Global, path: &str) -> Result<String, AllocError> {
    let names = names_of(alloc, path)?;
    let mut uri = String::new(alloc);
    uri.push_str(SCHEME)?;
    for name in names.iter() {
        uri.push('/')?;
        utf8_percent_encode(name, kept()).append_to(&mut uri)?;
    }
    Ok(uri)
}

// The names that stand in a path, where each `..` takes the one before it away.
fn names_of(alloc: Global, path: &str) -> Result<Vec<&str>, AllocError> {
    let mut names = Vec::new(alloc);
    for name in path.split('/') {
        match name {
            "" | "." => {}
            ".." => {
                let _ = names.pop();
            }
            _ => names.push(name)?,
        }
    }
    Ok(names)
}

// What has to be escaped in a name of a path.
fn kept() -> AsciiSet {
    NON_ALPHANUMERIC
        .remove(b'-')
        .remove(b'.')
        .remove(b'_')
        .remove(b'~')
}
