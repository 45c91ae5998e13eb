// Where participants of a plan stand in the briefs that mean it.

use plan_words::{FileLine, PlanWords};
use serde::Serialize;
use std::alloc::{AllocError, Global};

/// A line of a file.
#[derive(Drop, Serialize)]
pub struct At {
    file: String,
    line: u64,
}

/// Where the messages or the interrupts of a pair stand.
pub type BothAt = (Option<At>, Option<At>);

/// Where the message and the controller of a participant stand, or the interrupt that it is.
pub type OneAt = Vec<At>;

/// The places of a pair; nothing where no brief means the plan.
///
/// # Errors
///
/// Where an allocation fails.
pub fn both_at(
    alloc: Global,
    words: PlanWords<'_>,
    both: (u32, u32),
) -> Result<Option<BothAt>, AllocError> {
    if !words.has_briefs() {
        return Ok(None);
    }
    let first = line_of(alloc, words.item_at(both.0))?;
    let second = line_of(alloc, words.item_at(both.1))?;
    Ok(Some((first, second)))
}

/// The places of a participant; nothing where no brief means the plan.
///
/// # Errors
///
/// Where an allocation fails.
pub fn one_at(alloc: Global, words: PlanWords<'_>, p: u32) -> Result<Option<OneAt>, AllocError> {
    let Some(item) = line_of(alloc, words.item_at(p))? else {
        return Ok(None);
    };
    let mut places = Vec::new(alloc);
    places.push(item)?;
    if let Some(controller) = line_of(alloc, words.controller_at(p))? {
        places.push(controller)?;
    }
    Ok(Some(places))
}

/// The places of the messages and the interrupts of all participants, as they are written; nothing where no brief means
/// the plan.
///
/// # Errors
///
/// Where an allocation fails.
pub fn all_at(alloc: Global, words: PlanWords<'_>) -> Result<Option<Vec<String>>, AllocError> {
    if !words.has_briefs() {
        return Ok(None);
    }
    let participants = words.plan().participants();
    let mut places = Vec::with_capacity(alloc, participants as usize)?;
    for p in 0..participants {
        places.push(written_at(alloc, words, p)?)?;
    }
    Ok(Some(places))
}

fn written_at(alloc: Global, words: PlanWords<'_>, p: u32) -> Result<String, AllocError> {
    let place = line_of(alloc, words.item_at(p))?;
    match serde_json::to_string(alloc, &place) {
        Ok(text) => Ok(text),
        // (out of memory: every key is a text)
        Err(_) => Err(AllocError),
    }
}

/// A place in the briefs, where there is one.
///
/// # Errors
///
/// Where an allocation fails.
pub fn line_of(alloc: Global, place: Option<FileLine<'_>>) -> Result<Option<At>, AllocError> {
    let Some(FileLine { file, line }) = place else {
        return Ok(None);
    };
    Ok(Some(At {
        file: String::from_str(alloc, file)?,
        line,
    }))
}
