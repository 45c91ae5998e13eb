// The layout of a text.

use editor_texts::{Edit, Lines, Units};
use layout::formatted;
use plan_text::PlanError;
use std::alloc::{AllocError, Global};

/// The whole text, as it is laid out. None where it is so already, or is refused.
///
/// # Errors
///
/// Where an allocation fails.
pub(crate) fn laid_out(alloc: Global, text: &[u8]) -> Result<Option<Vec<u8>>, AllocError> {
    match formatted(alloc, text) {
        Ok(laid_out) if laid_out.as_slice() == text => Ok(None),
        Ok(laid_out) => Ok(Some(laid_out)),
        Err(unread) if unread.refused.error == PlanError::NoMemory => Err(AllocError),
        Err(_) => Ok(None),
    }
}

/// The edit that puts this in the place of a whole text.
///
/// # Errors
///
/// Where an allocation fails.
pub(crate) fn edit_of<'a>(
    alloc: Global,
    old: &[u8],
    new: &'a str,
    units: Units,
) -> Result<Edit<'a>, AllocError> {
    Ok(Edit {
        range: Lines::of(alloc, old, units)?.whole(),
        new_text: new,
    })
}
