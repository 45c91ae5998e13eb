// What is told of documents without being asked for: what is wrong with them.

use crate::answers::Answers;
use editor_lists::{marks_of, told_nothing, told_with};
use editor_texts::{Known, Units};
use std::alloc::{AllocError, Global};

const METHOD: &str = "textDocument/publishDiagnostics";

/// Says what was found wrong, document by document, of those that are told of here.
///
/// # Errors
///
/// Where an allocation fails.
pub(crate) fn publish(
    alloc: Global,
    answers: &mut Answers,
    known: &Known,
    units: Units,
) -> Result<(), AllocError> {
    let marks = marks_of(alloc, &known.given, units)?;
    let mut file = 0u32;
    for part in known.given.parts.iter() {
        if part.is_told {
            answers.notify(METHOD, told_with(alloc, known, marks.as_slice(), file));
        }
        file = file.saturating_add(1);
    }
    Ok(())
}

/// Says that nothing is wrong with a document any more.
pub(crate) fn publish_nothing(alloc: Global, answers: &mut Answers, uri: &str) {
    answers.notify(METHOD, told_nothing(alloc, uri));
}
